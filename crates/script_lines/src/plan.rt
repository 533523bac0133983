ghost use Rattle.std.specs.Prelude.{◌≡◌};
ghost use Rattle.script_words.specs.Outcome.{Gives, Becomes};
ghost use Rattle.script_lines.specs.Plan.{plan_deed_of, node_named, is_pair, receiver_at, flag_at, plan_at, plan_line};

use crate::context::Context;
use crate::script::{NUMBER_MAX, PlanDeed, PlanLine};
use base_types::{Name, Node};
use script_words::{
    BadWhy, Fault, Words, end_at, is_word, kind_of, known, label_at, node_of, small_at, unless,
    word_at,
};

#[tactic(auto, unfolding(crate::specs::Plan::plan_deed_of))]
fn plan_deed_of(word: &[u8]) -> Option<PlanDeed>
    ensures { result ≡ plan_deed_of word.now }
{
    if is_word(word, b"drop") {
        Some(PlanDeed::Drop)
    } else if is_word(word, b"hold") {
        Some(PlanDeed::Hold)
    } else if is_word(word, b"again") {
        Some(PlanDeed::Again)
    } else {
        None
    }
}

#[tactic(auto, unfolding(crate::specs::Plan::node_named))]
fn node_named(words: &Words, i: usize) -> Result<Node, Fault>
    ensures { Gives result (node_named words.now i) }
{
    known(node_of(word_at(words, i)?.as_slice()))
}

// Whether these are one host and one server.
fn is_pair(from: Node, to: Node) -> bool
    ensures { result ≡ is_pair from to }
{
    match (from, to) {
        (Node::Host(_), Node::Server(_)) => true,
        (Node::Server(_), Node::Host(_)) => true,
        _ => false,
    }
}

// The flag that ends a line which has one.
#[tactic(auto, unfolding(crate::specs::Plan::flag_at))]
fn flag_at(deed: PlanDeed, words: &Words) -> Result<Option<Name>, Fault>
    ensures { Gives result (flag_at deed words.now) }
{
    if matches!(deed, PlanDeed::Drop) {
        end_at(words, 6)?;
        return Ok(None);
    }
    let flag = label_at(words, 6)?;
    end_at(words, 7)?;
    Ok(Some(flag))
}

impl Context {
    // Who receives: with the sender one host and one server, and then declared.
    #[tactic(auto, unfolding(crate::specs::Plan::receiver_at))]
    fn receiver_at(&self, from: Node, words: &Words) -> Result<Node, Fault>
        ensures { Gives result (receiver_at self.now.script from words.now) }
    {
        let to = node_named(words, 3)?;
        unless(!is_pair(from, to), BadWhy::Word)?;
        self.node_declared(to)
    }

    #[tactic(auto, unfolding(crate::specs::Plan::plan_at))]
    fn plan_at(&self, words: &Words) -> Result<PlanLine, Fault>
        ensures { Gives result (plan_at self.now.script words.now) }
    {
        let deed = known(plan_deed_of(word_at(words, 1)?.as_slice()))?;
        let from = self.node_declared(node_named(words, 2)?)?;
        let to = self.receiver_at(from, words)?;
        let kind = known(kind_of(word_at(words, 4)?.as_slice()))?;
        let n = small_at(words, 5, 1, NUMBER_MAX)?;
        let flag = flag_at(deed, words)?;
        Ok(PlanLine {
            deed,
            from,
            to,
            kind,
            n,
            flag,
        })
    }

    /// Takes the header that tells what befalls a message.
    #[tactic(auto, unfolding(crate::specs::Plan::plan_line))]
    pub(crate) fn plan_line(&mut self, words: &Words) -> Result<(), Fault>
        ensures { Becomes result self.new (plan_line self.old words.now) }
    {
        let plan = self.plan_at(words)?;
        self.script.plan.push(plan)?;
        Ok(())
    }
}
