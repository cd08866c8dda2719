//! A chain's own fields.
ghost use Rattle.std.specs.Prelude.{codes};
ghost use Rattle.serde_json.specs.View.{view};
ghost use Rattle.document_entries.specs.Answers.{Answers};
ghost use Rattle.document_entries.specs.Forms.{defaulted, bytes32_form, number_within};
ghost use Rattle.network_config.specs.Chains.{para_field, weight_field, no_account, chain_head};

use chain_ids::ChainId;
use document_entries::{Place, Stop, bytes_of, number_of, pair_of};
use operands::Weight;
use serde_json::Value;
use xcm_program::WeightRule;

/// A chain's own fields, apart from its lists.
#[derive(Drop)]
pub(crate) struct ChainHead {
    /// Which chain of the network it is.
    pub(crate) chain: ChainId,
    /// What an instruction weighs, and how many a program may have.
    pub(crate) rules: WeightRule,
    /// The most that a program may weigh.
    pub(crate) limit: Weight,
    /// How many kinds of assets an execution holds at most.
    pub(crate) max_holding: u32,
    /// The account that fees are paid to.
    pub(crate) fee_account: [u8; 32],
}

/// What a chain serves besides; in format 1 nothing.
#[derive(Drop)]
pub(crate) struct Served {
    /// Whether it serves calls.
    pub(crate) calls: bool,
    /// Whether it serves locks.
    pub(crate) locks: bool,
}

/// The chain: the relay chain, where there is no number of a parachain.
fn para_field(place: Place, value: &Value) -> Result<ChainId, Stop>
    ensures { Answers result (para_field place (view value.now)) }
{
    match value.get("para") {
        Some(para) => Ok(ChainId::Para(number_of(place, 0, u32::MAX, para)?)),
        None => Ok(ChainId::Relay),
    }
}

/// A weight, or the one given where it isn't there.
fn weight_field(place: Place, name: &str, missing: Weight, value: &Value) -> Result<Weight, Stop>
    ensures { Answers result (weight_field name.now missing.ref_time missing.proof_size place
        (view value.now)) }
{
    match value.get(name) {
        Some(weight) => {
            let (ref_time, proof_size) = pair_of(place, weight)?;
            Ok(Weight {
                ref_time,
                proof_size,
            })
        }
        None => Ok(missing),
    }
}

/// A number of a range, or the range's last number where it isn't there.
fn number_field(place: Place, name: &str, low: u32, high: u32, value: &Value) -> Result<u32, Stop>
    ensures { Answers result (defaulted name.now high (number_within low high) place
        (view value.now)) }
{
    match value.get(name) {
        Some(number) => number_of(place, low, high, number),
        None => Ok(high),
    }
}

/// The account that fees are paid to.
fn fee_account_field(place: Place, value: &Value) -> Result<[u8; 32], Stop>
    ensures { Answers result (defaulted (codes "fee_account") no_account bytes32_form place
        (view value.now)) }
{
    match value.get("fee_account") {
        Some(account) => bytes_of(place, account),
        None => Ok([0; 32]),
    }
}

/// A chain's own fields.
#[tactic(auto, unfolding(crate::specs::Chains::chain_head))]
pub(crate) fn head_of(place: Place, value: &Value) -> Result<ChainHead, Stop>
    ensures { Answers result (chain_head place (view value.now)) }
{
    let chain = para_field(place, value)?;
    let default_unit = Weight {
        ref_time: 1000,
        proof_size: 100,
    };
    let unit = weight_field(place, "unit_weight", default_unit, value)?;
    let default_limit = Weight {
        ref_time: 1_000_000_000_000,
        proof_size: 5_242_880,
    };
    let limit = weight_field(place, "max_weight", default_limit, value)?;
    let max_instructions = number_field(place, "max_instructions", 1, 100, value)?;
    let max_holding = number_field(place, "max_holding", 20, 64, value)?;
    let fee_account = fee_account_field(place, value)?;
    Ok(ChainHead {
        chain,
        rules: WeightRule {
            unit,
            max_instructions,
        },
        limit,
        max_holding,
        fee_account,
    })
}
