ghost use Rattle.std.specs.Prelude.{◌≡◌};
ghost use Rattle.store_state.specs.Outcomes.{now_done, not_fresh};

use tree_calls::Reply;

/// What became of an act.
#[derive(PartialEq)]
pub struct Done {
    /// Whether it was done now. If not, nothing changed.
    pub fresh: bool,
    /// The reply; of a request that was decided before the one that is kept.
    pub reply: Reply,
}

impl Drop for Done {
    fn drop(self) {
        let Done { fresh: _, reply: _ } = self;
    }
}

impl Done {
    /// What is answered to an act that is done now.
    pub fn now(reply: Reply) -> Done
        ensures { result ≡ now_done reply }
    {
        Done { fresh: true, reply }
    }

    /// What is answered to an act that changes nothing.
    pub fn not_fresh(reply: Reply) -> Done
        ensures { result ≡ not_fresh reply }
    {
        Done {
            fresh: false,
            reply,
        }
    }
}
