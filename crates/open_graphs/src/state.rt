//! Whole states of an evaluation.
ghost use Rattle.open_graphs.specs.Collected.{CollectingKeepsSound};
ghost use Rattle.open_graphs.specs.Words.{OneAnswerKeepsSound, CycleIsAnswered, DoneIsAnswered, ProvisionalIsAnswered, FinalIsAnswered, StartIsSound, PushKeepsSound, AnswersKeepSound, PopKeepsSound, RerunKeepsSound, FinalIsGraph};

/// An evaluation begins in a sound state.
pub fn start_is_sound()
    ensures { StartIsSound }
{}

/// A sound state stays sound when a goal is pushed, when the newest run gets answers, when its goal is
/// done, and when it is run again.
pub fn moves_keep_sound()
    ensures push { PushKeepsSound }
    ensures answers { AnswersKeepSound }
    ensures pop { PopKeepsSound }
    ensures rerun { RerunKeepsSound }
{}

/// A sound state stays sound when nodes are let go to which nothing of it leads.
pub fn collecting_keeps_sound()
    ensures { CollectingKeepsSound }
{}

/// The newest run may be answered by a goal on the stack, by a goal that was just evaluated, by a
/// provisional entry, and by a final answer.
pub fn answer_keeps_sound()
    ensures one_more { OneAnswerKeepsSound }
    ensures cycle { CycleIsAnswered }
    ensures done { DoneIsAnswered }
    ensures stored { ProvisionalIsAnswered }
    ensures final_answer { FinalIsAnswered }
{}

/// At each moment the final answers have their graphs.
pub fn final_is_graph()
    ensures { FinalIsGraph }
{}
