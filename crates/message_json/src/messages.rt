//! Messages.
use crate::line::{Line, ToJson};
use base_types::NoMemory;
use message_types::{
    AppliedGive, Body, Bring, Change, Direction, Done, DoneIs, Ends, Fetch, Give, Grant, Message,
    Named, NotHere, Outstanding, Reclaim, Reclaimed, Revoke, Ship, Shipped,
};

impl ToJson for Fetch {
    ghost use Rattle.message_json.specs.Messages.{fetch_json};

    ghost json = { fetch_json };

    #[tactic(auto, unfolding(crate::specs::Messages::fetch_json))]
    fn put(&self, line: &mut Line) -> Result<(), NoMemory> {
        line.open()?;
        line.field("number", &self.number)?;
        line.field("fid", &self.fid)?;
        line.field("needs", &self.needs)?;
        line.close()
    }
}

impl ToJson for Change {
    ghost use Rattle.message_json.specs.Messages.{change_json};

    ghost json = { change_json };

    #[tactic(auto, unfolding(crate::specs::Messages::change_json))]
    fn put(&self, line: &mut Line) -> Result<(), NoMemory> {
        line.open()?;
        line.field("number", &self.number)?;
        line.field("fileset", &self.fileset)?;
        line.field("fid", &self.fid)?;
        line.field("enter", &self.enter)?;
        line.field("k", &self.k)?;
        line.field("call", &self.call)?;
        line.close()
    }
}

impl ToJson for Bring {
    ghost use Rattle.message_json.specs.Messages.{bring_json};

    ghost json = { bring_json };

    #[tactic(auto, unfolding(crate::specs::Messages::bring_json))]
    fn put(&self, line: &mut Line) -> Result<(), NoMemory> {
        line.open()?;
        line.field("number", &self.number)?;
        line.field("fid", &self.fid)?;
        line.field("stamp", &self.stamp)?;
        line.field("tokens", &self.tokens)?;
        line.close()
    }
}

impl ToJson for Grant {
    ghost use Rattle.message_json.specs.Messages.{grant_json};

    ghost json = { grant_json };

    #[tactic(auto, unfolding(crate::specs::Messages::grant_json))]
    fn put(&self, line: &mut Line) -> Result<(), NoMemory> {
        line.open()?;
        line.field("bring", &self.bring)?;
        line.field("status", &self.status)?;
        line.field("pieces", &self.pieces)?;
        line.field("entries", &self.entries)?;
        line.close()
    }
}

impl ToJson for DoneIs {
    ghost use Rattle.message_json.specs.Messages.{outcome_json};

    ghost json = { outcome_json };

    #[tactic(auto, unfolding(crate::specs::Messages::outcome_json))]
    fn put(&self, line: &mut Line) -> Result<(), NoMemory> {
        match self {
            DoneIs::Reply(reply) => line.tagged("reply", reply),
            DoneIs::Known(fileset) => line.tagged("known", fileset),
            DoneIs::Granted => line.word("granted"),
            DoneIs::Again => line.word("again"),
            DoneIs::Elsewhere(server) => line.tagged("elsewhere", server),
        }
    }
}

impl ToJson for Done {
    ghost use Rattle.message_json.specs.Messages.{done_json};

    ghost json = { done_json };

    #[tactic(auto, unfolding(crate::specs::Messages::done_json))]
    fn put(&self, line: &mut Line) -> Result<(), NoMemory> {
        line.open()?;
        line.field("fileset", &self.fileset)?;
        line.field("outcome", &self.outcome)?;
        line.field("bring", &self.bring)?;
        line.close()
    }
}

impl ToJson for Revoke {
    ghost use Rattle.message_json.specs.Messages.{revoke_json};

    ghost json = { revoke_json };

    #[tactic(auto, unfolding(crate::specs::Messages::revoke_json))]
    fn put(&self, line: &mut Line) -> Result<(), NoMemory> {
        line.open()?;
        line.field("fid", &self.fid)?;
        line.field("stamp", &self.stamp)?;
        line.field("ids", &self.ids)?;
        line.close()
    }
}

impl ToJson for Named {
    ghost use Rattle.message_json.specs.Messages.{named_json};

    ghost json = { named_json };

    #[tactic(auto, unfolding(crate::specs::Messages::named_json))]
    fn put(&self, line: &mut Line) -> Result<(), NoMemory> {
        line.open()?;
        line.field("fid", &self.fid)?;
        line.field("ids", &self.ids)?;
        line.close()
    }
}

impl ToJson for Ends {
    ghost use Rattle.message_json.specs.Messages.{ends_json};

    ghost json = { ends_json };

    #[tactic(auto, unfolding(crate::specs::Messages::ends_json))]
    fn put(&self, line: &mut Line) -> Result<(), NoMemory> {
        line.open()?;
        line.field("k", &self.k)?;
        line.field("call", &self.call)?;
        line.close()
    }
}

impl ToJson for Give {
    ghost use Rattle.message_json.specs.Messages.{give_json};

    ghost json = { give_json };

    #[tactic(auto, unfolding(crate::specs::Messages::give_json))]
    fn put(&self, line: &mut Line) -> Result<(), NoMemory> {
        line.open()?;
        line.field("number", &self.number)?;
        line.field("fid", &self.fid)?;
        line.field("ids", &self.ids)?;
        line.field("pieces", &self.pieces)?;
        line.field("length", &self.length)?;
        line.field("ends", &self.ends)?;
        line.close()
    }
}

impl ToJson for AppliedGive {
    ghost use Rattle.message_json.specs.Messages.{applied_json};

    ghost json = { applied_json };

    #[tactic(auto, unfolding(crate::specs::Messages::applied_json))]
    fn put(&self, line: &mut Line) -> Result<(), NoMemory> {
        line.open()?;
        line.field("fileset", &self.fileset)?;
        line.field("number", &self.number)?;
        line.close()
    }
}

impl ToJson for Outstanding {
    ghost use Rattle.message_json.specs.Messages.{outstanding_json};

    ghost json = { outstanding_json };

    #[tactic(auto, unfolding(crate::specs::Messages::outstanding_json))]
    fn put(&self, line: &mut Line) -> Result<(), NoMemory> {
        line.open()?;
        line.field("fileset", &self.fileset)?;
        line.field("moves", &self.moves)?;
        line.field("give", &self.give)?;
        line.field("change", &self.change)?;
        line.close()
    }
}

impl ToJson for Reclaim {
    ghost use Rattle.message_json.specs.Messages.{reclaim_json};

    ghost json = { reclaim_json };

    #[tactic(auto, unfolding(crate::specs::Messages::reclaim_json))]
    fn put(&self, line: &mut Line) -> Result<(), NoMemory> {
        line.open()?;
        line.field("tokens", &self.tokens)?;
        line.field("numbers", &self.numbers)?;
        line.close()
    }
}

impl ToJson for Reclaimed {
    ghost use Rattle.message_json.specs.Messages.{reclaimed_json};

    ghost json = { reclaimed_json };

    #[tactic(auto, unfolding(crate::specs::Messages::reclaimed_json))]
    fn put(&self, line: &mut Line) -> Result<(), NoMemory> {
        line.open()?;
        line.field("applied", &self.applied)?;
        line.field("left_out", &self.left_out)?;
        line.close()
    }
}

impl ToJson for NotHere {
    ghost use Rattle.message_json.specs.Messages.{not_here_json};

    ghost json = { not_here_json };

    #[tactic(auto, unfolding(crate::specs::Messages::not_here_json))]
    fn put(&self, line: &mut Line) -> Result<(), NoMemory> {
        line.open()?;
        line.field("fileset", &self.fileset)?;
        line.field("to", &self.to)?;
        line.close()
    }
}

impl ToJson for Ship {
    ghost use Rattle.message_json.specs.Messages.{ship_json};

    ghost json = { ship_json };

    #[tactic(auto, unfolding(crate::specs::Messages::ship_json))]
    fn put(&self, line: &mut Line) -> Result<(), NoMemory> {
        line.open()?;
        line.field("to", &self.to)?;
        line.field("ship", &self.ship)?;
        line.field("fileset", &self.fileset)?;
        line.field("at", &self.at)?;
        line.field("part", &self.part)?;
        line.close()
    }
}

impl ToJson for Shipped {
    ghost use Rattle.message_json.specs.Messages.{shipped_json};

    ghost json = { shipped_json };

    #[tactic(auto, unfolding(crate::specs::Messages::shipped_json))]
    fn put(&self, line: &mut Line) -> Result<(), NoMemory> {
        line.open()?;
        line.field("to", &self.to)?;
        line.field("ship", &self.ship)?;
        line.field("at", &self.at)?;
        line.field("reply", &self.reply)?;
        line.close()
    }
}

impl ToJson for Body {
    ghost use Rattle.message_json.specs.Messages.{body_json};

    ghost json = { body_json };

    #[tactic(auto, unfolding(crate::specs::Messages::body_json))]
    fn put(&self, line: &mut Line) -> Result<(), NoMemory> {
        match self {
            Body::Hello => line.word("hello"),
            Body::Fetch(fetch) => line.tagged("fetch", fetch),
            Body::Grant(grant) => line.tagged("grant", grant),
            Body::Change(change) => line.tagged("change", change),
            Body::Done(done) => line.tagged("done", done),
            Body::Revoke(revoke) => line.tagged("revoke", revoke),
            Body::Returned(named) => line.tagged("returned", named),
            Body::Kept(named) => line.tagged("kept", named),
            Body::GiveBack(give) => line.tagged("give_back", give),
            Body::Gone(applied) => line.tagged("gone", applied),
            Body::Reclaim(reclaim) => line.tagged("reclaim", reclaim),
            Body::Reclaimed(reclaimed) => line.tagged("reclaimed", reclaimed),
            Body::Restarted => line.word("restarted"),
            Body::Down => line.word("down"),
            Body::Bye => line.word("bye"),
            Body::NotHere(not_here) => line.tagged("not_here", not_here),
            Body::Ship(ship) => line.tagged("ship", ship),
            Body::Shipped(shipped) => line.tagged("shipped", shipped),
        }
    }
}

impl ToJson for Direction {
    ghost use Rattle.message_json.specs.Messages.{direction_json};

    ghost json = { direction_json };

    #[tactic(auto, unfolding(crate::specs::Messages::direction_json))]
    fn put(&self, line: &mut Line) -> Result<(), NoMemory> {
        match self {
            Direction::ToServer => line.word("to_server"),
            Direction::ToHost => line.word("to_host"),
            Direction::BetweenServers => line.word("between_servers"),
        }
    }
}

impl ToJson for Message {
    ghost use Rattle.message_json.specs.Messages.{message_json};

    ghost json = { message_json };

    #[tactic(auto, unfolding(crate::specs::Messages::message_json))]
    fn put(&self, line: &mut Line) -> Result<(), NoMemory> {
        line.open()?;
        line.field("direction", &self.direction)?;
        line.field("host", &self.host)?;
        line.field("server", &self.server)?;
        line.field("epoch", &self.epoch)?;
        line.field("moves", &self.moves)?;
        line.field("body", &self.body)?;
        line.close()
    }
}
