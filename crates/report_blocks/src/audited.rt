//! A network with what is kept of its supply block.
ghost use Rattle.std.specs.Prelude.{◌≡◌, IfOk, string_bytes};
ghost use Rattle.chain_net.specs.Nets.{world_of};
ghost use Rattle.report_blocks.specs.Reads.{world_supply_block};

use crate::reads::supply_block;
use chain_net::Net;
use report_text::{SupplyPlan, SupplySheet};
use std::alloc::{AllocError, Global};
use std::marker::Model;

/// A network with its supply block as it is kept between steps: the lines as they were written last, by a plan that is made once, since no step changes
/// what chains list. Contracts see it as the network.
#[derive(Drop)]
pub struct AuditedNet {
    pub(crate) net: Net,
    // None while a step runs, and where memory was refused to it.
    pub(crate) kept: Option<SupplySheet>,
}

impl Model for AuditedNet {
    ghost use Rattle.chain_net.specs.declared.net.Net.{Net};
    ghost use Rattle.report_blocks.specs.NetCode.{net_code};

    ghost Value = { Net };

    ghost coded = { net_code };

    ghost view = { λ a. a.net };

    ghost use Rattle.chain_net.specs.Nets.{world_of};
    ghost use Rattle.report_blocks.specs.Tables.{IsKeptOf};

    ghost invariant = { λ a. IsKeptOf a.kept (world_of a.net) };
}

impl AuditedNet {
    /// The network, with its supply block. An `Err` is out of memory.
    pub(crate) fn new(alloc: Global, net: Net) -> Result<AuditedNet, AllocError>
        ensures same { IfOk result (λ audited. audited ≡ net) }
    {
        let plan = SupplyPlan::of(alloc, net.chains())?;
        let sheet = SupplySheet::of(alloc, plan, net.chains())?;
        Ok(AuditedNet {
            net,
            kept: Some(sheet),
        })
    }

    /// The network.
    pub fn net(&self) -> &Net
        ensures { result.now ≡ self.now }
    {
        &self.net
    }

    /// What the network has of each asset that is native somewhere, and what backs each derivative: the lines under a step `supply`. An `Err` is
    /// out of memory.
    pub fn supply_text(&mut self, alloc: Global) -> Result<String, AllocError>
        ensures text { IfOk result
            (λ text. string_bytes text ≡ world_supply_block (world_of self.old)) }
        ensures same { self.new ≡ self.old }
    {
        let mut kept = self.kept.take();
        let sums = supply_block(alloc, &self.net, &mut kept)?;
        self.kept = kept;
        Ok(sums)
    }
}
