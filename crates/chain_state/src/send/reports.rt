//! Reports to other chains.
ghost use Rattle.std.specs.Prelude.{◌≡◌, IfOk};
ghost use Rattle.std.specs.Option.{option_copied};
ghost use Rattle.exec_base.specs.Answers.{AnswersOrRefuses};
ghost use Rattle.exec_base.specs.Host as host;
ghost use Rattle.exec_base.specs.Host.{report_program, respond_refusal, responded};
ghost use Rattle.exec_base.specs.Sending.{number_to, IsForwardable};
ghost use Rattle.chain_state.specs.PartOf.{part_of};

use crate::ChainState;
use exec_base::HostFault;
use locations::Location;
use operands::{QueryInfo, Response, XcmError};
use plain_lists::{Boxed, Listed};
use std::alloc::{AllocError, Global};
use xcm_program::{Instruction, Program};

/// What a report sends.
fn report_program(
    alloc: Global,
    info: &QueryInfo,
    response: Response,
    querier: Option<Location>,
) -> Result<Program, AllocError>
    ensures { IfOk result (λ program. program ≡ report_program info.now response querier) }
{
    let mut items = Vec::with_capacity(alloc, 1)?;
    items.push(Instruction::QueryResponse {
        query_id: info.query_id,
        response,
        max_weight: info.max_weight,
        querier: Boxed::new(alloc, querier)?,
    })?;
    Ok(Listed::from_vec(items))
}

impl ChainState {
    /// The querier as the destination names it, where it can.
    fn seen_querier(&self, dest: &Location, querier: Option<&Location>) -> Option<Option<Location>>
        ensures { result ≡ host.querier_seen (part_of self.now) dest.now
            (option_copied querier.entry) }
    {
        let Some(querier) = querier else {
            return Some(None);
        };
        match querier.reanchored(dest, &self.settings.site.path()) {
            Ok(seen) => Some(Some(seen)),
            Err(_) => None,
        }
    }

    /// Answers a query of another chain.
    pub(crate) fn respond(
        &mut self,
        to: &QueryInfo,
        response: Response,
        querier: Option<&Location>,
    ) -> Result<u64, HostFault>
        requires forwardable { IsForwardable
            (report_program to.now response (option_copied querier)) }
        ensures step { AnswersOrRefuses (respond_refusal (part_of self.old) to.now response
            (option_copied querier.entry)) (number_to (part_of self.old) to.now.destination)
            (responded (part_of self.old) to.now response (option_copied querier.entry))
            (part_of self.old) result (part_of self.new) }
    {
        let Some(querier) = self.seen_querier(&to.destination, querier) else {
            return Err(HostFault::Xcm(XcmError::ReanchorFailed));
        };
        let program = report_program(*self.events.allocator(), to, response, querier)?;
        self.send_to(&to.destination, &program)
    }
}
