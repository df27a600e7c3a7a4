//! Depths, as words.
ghost use Rattle.std.specs.Prelude.{◌≡◌, MatchOption};
ghost use Rattle.std.specs.Str.Parse.{digits_value};
ghost use Rattle.rule_tables.specs.Words.{IsDepth};

/// The number that 1 to 7 decimal digits spell, and nothing for any other word.
pub fn depth_of(word: &[u8]) -> Option<usize>
    ensures { MatchOption result (IsDepth word.now → ⊥)
        (λ depth. IsDepth word.now × (depth ≡ digits_value 10 word.now)) }
{
    if word.is_empty() || word.len() > 7 {
        return None;
    }
    let mut depth = 0;
    for digit in word {
        if !digit.is_ascii_digit() {
            return None;
        }
        depth = depth * 10 + usize::from(*digit - b'0');
    }
    Some(depth)
}
