//! What is told, queries that are answered, and goods that are parked.
ghost use Rattle.std.specs.Prelude.{◌≡◌, ◌<◌, length, position};
ghost use Rattle.exec_base.specs.Answers.{AnswersWithinMemory};
ghost use Rattle.exec_base.specs.Host.{is_query, has_open_query, answered, parked, told};
ghost use Rattle.chain_state.specs.PartOf.{part_of};

use crate::ChainState;
use asset_bundles::AssetBundle;
use exec_base::Event;
use locations::Location;
use operands::OpenQuery;
use std::alloc::AllocError;

/// Whether it is the query of that number that the location may answer.
fn is_query(one: &OpenQuery, query: u64, from: &Location) -> bool
    ensures { result ≡ is_query query from.now one.now }
{
    one.id == query && one.from == *from
}

/// Where the query of that number is that the location may answer.
fn place_of(queries: &[OpenQuery], query: u64, from: &Location) -> Option<usize>
    ensures { result ≡ position (is_query query from.now) queries.now }
{
    queries.iter().position(|one| is_query(one, query, from))
}

impl ChainState {
    /// Closes the query, where it is open from that location.
    pub(crate) fn answer(&mut self, from: &Location, query: u64) -> Result<bool, AllocError>
        ensures step { AnswersWithinMemory (has_open_query (part_of self.old) from.now query)
            (answered (part_of self.old) from.now query) (part_of self.old) result
            (part_of self.new) }
    {
        self.pending_events.reserve(1)?;
        let Some(place) = place_of(self.queries.as_slice(), query, from) else {
            self.pending_events.push_reserved(Event::Ignored { query });
            return Ok(false);
        };
        self.queries.remove(place);
        self.pending_events.push_reserved(Event::Answered { query });
        Ok(true)
    }

    /// Keeps a bundle, without memory.
    #[tactic(auto, unfolding(exec_base::specs::Host::parked))]
    pub(crate) fn park(&mut self, goods: AssetBundle)
        requires few { length (part_of self.old).parked < 4 }
        ensures step { part_of self.new ≡ parked (part_of self.old) goods }
    {
        self.parked.push_reserved(goods.set_down());
    }

    /// Tells an event, and after it what is kept back.
    #[inline(always)]
    #[tactic(auto, unfolding(exec_base::specs::Host::told))]
    pub(crate) fn event(&mut self, e: Event) -> Result<(), AllocError>
        ensures step { AnswersWithinMemory tt (told (part_of self.old) e) (part_of self.old) result
            (part_of self.new) }
    {
        self.events.reserve(1 + self.pending_events.len())?;
        self.events.push_reserved(e);
        match self.events.append(&mut self.pending_events) {
            Ok(()) => Ok(()),
            Err(_) => unreachable!(),
        }
    }
}
