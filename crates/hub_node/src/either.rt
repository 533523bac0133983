use crate::node::{Node, NodeFault};
use hub_turns::{Given, Pending, Turned};

/// A host or a server.
#[derive(Drop)]
pub enum AnyNode<H, S> {
    Host(H),
    Server(S),
}

impl<H: Node, S: Node> Node for AnyNode<H, S> {
    ghost use Rattle.hub_node.specs.Either.{
      broken_any,
      fails_either,
      hands_any,
      lacks_here,
      next_any,
      of_either,
      stands_any,
    };
    ghost use Rattle.hub_node.specs.Either.{stays_after, stays_here};

    ghost tells = { H.tells × S.tells };

    ghost stands = { stands_any H.stands S.stands };

    ghost stays = { of_either H.stays S.stays };

    ghost failed = { λ fault. of_either (H.failed fault) (S.failed fault) };

    ghost broken = { broken_any H.broken S.broken };

    ghost next = { next_any H.next S.next };

    fn waiting(&self) -> Option<u32> {
        match self {
            AnyNode::Host(host) => host.waiting(),
            AnyNode::Server(server) => server.waiting(),
        }
    }

    fn work(&mut self, given: Option<Given>, steps: &mut Pending) -> Result<Turned, NodeFault> {
        match self {
            AnyNode::Host(host) => host.work(given, steps),
            AnyNode::Server(server) => server.work(given, steps),
        }
    }

    ghost hands_in = { hands_any H.tells S.tells H.stands S.stands H.hands_in S.hands_in };

    ghost stays_so = { stays_here H.stays S.stays H.stays_so S.stays_so };

    ghost stays_on = { stays_after H.stays S.stays H.stays_on S.stays_on };

    ghost fails_on = { fails_either H.stays S.stays H.failed S.failed H.fails_on S.fails_on };

    ghost lacks = { lacks_here H.failed S.failed H.lacks S.lacks };
}
