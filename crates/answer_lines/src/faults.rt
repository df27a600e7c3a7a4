//! Faults in a word.
ghost use Rattle.std.specs.Prelude.{◌≡◌};
ghost use Rattle.answer_lines.specs.Faults.{fault_word_of};

use search_context::context::Fault;

/// The word that tells the fault.
pub fn fault_word<I: Copy, R: Copy>(fault: Fault<I, R>) -> &'static str
    ensures { result.now ≡ fault_word_of fault }
{
    match fault {
        Fault::Memory => "memory",
        Fault::Conflict { .. } => "conflict",
        Fault::Validation { .. } => "validation",
        Fault::Protocol(_) => "protocol",
    }
}
