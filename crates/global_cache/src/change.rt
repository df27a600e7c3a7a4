//! The rules change, and what does not rest on what changed stays.
ghost use Rattle.std.specs.Prelude.{◌≡◌};
ghost use Rattle.global_cache.specs.Words.{is_among, KeepsOtherNodes, KeepsOtherResults, KeepsOthers};

use crate::GlobalCache;
use search_context::context::{Cx, Delegate};
use std::collections::HashSet;

impl<D: Delegate> GlobalCache<D> {
    /// Takes the cache over to the rules of this context. What is stored of goals that are gone is let go, with their
    /// nodes, and all else stays: it is right by the new rules too. It takes no memory.
    ///
    /// A goal is gone where its script is another one than it was, and where it may ask a goal that is gone. So of each
    /// other goal the results stand, with graphs of the new rules, whatever becomes of those.
    pub fn change(&mut self, cx: D::Cx, gone: &HashSet<<D::Cx as Cx>::Input>)
        requires { KeepsOthers (is_among D.Cx.Input.eq gone.now.keys)
            (D.script self.old.cx) (D.script cx) }
        ensures cx { self.new.cx ≡ cx }
        ensures results { KeepsOtherResults D.Cx.Input.eq (is_among D.Cx.Input.eq gone.now.keys)
            self.old.results self.new.results }
        ensures nodes { KeepsOtherNodes (is_among D.Cx.Input.eq gone.now.keys)
            self.old.nodes self.new.nodes }
    {
        self.cx = cx;
        self.nodes.forget(gone);
        self.results.forget(gone);
    }
}
