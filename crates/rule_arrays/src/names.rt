//! Names, each in a line of its own.
ghost use Rattle.std.specs.Prelude.{◌≡◌, ◌≤◌, ◌^◌, MatchOption};
ghost use Rattle.rule_arrays.specs.Names.{IsFirstLine, IsInNoLine};

/// The place of the first line that is this name, which is its goal's number where the lines are the names of `TableRows`.
/// Newlines end the lines, and the last one may lack it. No line is an empty name.
pub fn find(names: &[u8], name: &[u8]) -> Option<u32>
    ensures { MatchOption result (IsInNoLine names.now name.now) (IsFirstLine names.now name.now) }
{
    if name.is_empty() {
        return None;
    }
    for (place, line) in names.split(|byte| *byte == b'\n').enumerate() {
        if line == name {
            return numbered(place);
        }
    }
    None
}

// The place in 32 bits.
fn numbered(place: usize) -> Option<u32>
    ensures { MatchOption result (2 ^ 32 ≤ place) (λ number. number ≡ place) }
{
    if place > u32::MAX as usize {
        None
    } else {
        Some(place as u32)
    }
}
