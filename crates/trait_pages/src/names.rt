//! What goals are called.

use search_context::context::NoMemory;
use std::alloc::Global;
use trait_goals::Goals;
use trait_texts::Spelling;

/// The names of goals, as `List<i32>: Send`.
#[derive(Clone, Copy)]
pub struct Names<'a, 'b> {
    pub goals: &'a Goals,
    pub spelling: &'a Spelling<'b>,
    /// Names can be read as questions: the parameter `T` of the function `f` is called `f::T`, and of the second impl `impl::2::T`,
    /// and not `T`, as answers call it.
    pub are_full: bool,
}

impl Names<'_, '_> {
    /// Writes what the goal is called. Nothing is written of a goal that there is not.
    pub fn write(self, alloc: Global, text: &mut Vec<u8>, goal: usize) -> Result<(), NoMemory> {
        let Some(asked) = self.goals.asked(goal) else {
            return Ok(());
        };
        let terms = self.goals.terms();
        if self.are_full {
            self.spelling
                .write_full_type(alloc, text, terms, asked.subject)?;
        } else {
            self.spelling.write_type(alloc, text, terms, asked.subject)?;
        }
        text.extend_from_slice(b": ")?;
        text.extend_from_slice(self.spelling.trait_name(asked.bound).unwrap_or(b""))?;
        Ok(())
    }

    /// What each goal is called.
    pub fn all(self, alloc: Global) -> Result<Vec<Vec<u8>>, NoMemory> {
        let mut names = Vec::new(alloc);
        for goal in 0..self.goals.len() {
            let mut name = Vec::new(alloc);
            self.write(alloc, &mut name, goal)?;
            names.push(name)?;
        }
        Ok(names)
    }

    /// The name of each goal as a word in a rule: `List<i32>:Send`. Where a blank cannot be left out, as in `&mut T`, stands `~`.
    pub fn labels(self, alloc: Global) -> Result<Vec<Vec<u8>>, NoMemory> {
        let names = self.all(alloc)?;
        let mut labels = Vec::with_capacity(alloc, names.len())?;
        for name in names.iter() {
            labels.push(word_of(alloc, name.as_slice())?)?;
        }
        Ok(labels)
    }
}

// The text without blanks, but for those between two words.
fn word_of(alloc: Global, text: &[u8]) -> Result<Vec<u8>, NoMemory> {
    let mut word = Vec::with_capacity(alloc, text.len())?;
    let mut stands_behind_name = false;
    let mut is_blank = false;
    for byte in text {
        if *byte == b' ' {
            is_blank = true;
            continue;
        }
        let is_name = byte.is_ascii_alphanumeric() || *byte == b'_';
        if is_blank && is_name && stands_behind_name {
            word.push(b'~')?;
        }
        word.push(*byte)?;
        stands_behind_name = is_name;
        is_blank = false;
    }
    Ok(word)
}
