//! What holds of a network of chains that steps led to.
ghost use Rattle.std.specs.Prelude.{ℕ, List};
ghost use Rattle.chain_ids.specs.declared.chain.ChainId.{ChainId};
ghost use Rattle.network_spec.specs.declared.network.NetworkSpec.{NetworkSpec};
ghost use Rattle.network_steps.specs.Worlds.{World};
ghost use Rattle.network_steps.specs.Steps.{Step, Exec, Deliver, next_world};
ghost use Rattle.network_steps.specs.Genesis.{order_of, first_world};
ghost use Rattle.law_steps.specs.Shapes.{AllShaped};
ghost use Rattle.law_authority.specs.Speakers.{HasAuthority, IsAuthorized};
ghost use Rattle.law_steps.specs.Kept.{IsCoherent};
ghost use Rattle.law_nets.specs.Runs.{HasPast, HasSomePast};
ghost use Rattle.law_nets.specs.Stops.{ExecStops, DeliverStops, DrainStops};
ghost use Rattle.law_nets.specs.Promises.{KeepsAssets, PaysInFull, StopsWithAuthority};

use crate::{law_of_paid_messages, law_of_unsaturated_runs, law_of_unsaturated_worlds};
use law_authority::{law_of_authority, law_of_executions_spending_one_account};
use law_steps::{
    law_of_conserved_deliveries, law_of_conserved_executions, law_of_conserved_networks,
    law_of_delivered_messages, law_of_runs_that_send, law_of_seven_message_shapes,
    law_of_shaped_networks,
};

/// A network that opens has a past, and each step leads from one past to the next. Where it is known that there is a past, it can be found:
/// steps can be enumerated, and two worlds told apart.
pub fn law_of_pasts_through_steps()
    ensures opened { (spec : NetworkSpec) → HasPast spec (first_world spec) }
    ensures stepped { (spec : NetworkSpec) (w : World) (step : Step)
        → HasPast spec w → HasPast spec (next_world (order_of spec) w step) }
    ensures known { (spec : NetworkSpec) (w : World) → HasSomePast spec w → HasPast spec w }
{}

/// Whatever steps a network has run: a coherent one keeps each asset and backs each derivative, and has burned nothing because an amount passed
/// its maximum or an instance was there already (`kept`); in a coherent one, now and after any number of the deliveries of its next drain, what a
/// delivery would take is paid where its receiver admits it (`paid`). In every network each message that waits has one of the seven shapes
/// (`shaped`), and the next step lowers no account but its caller's, or that of the sending chain at the receiver of a delivery, or a pool's,
/// whose product doesn't fall (`authorized`).
pub fn law_of_networks_with_pasts()
    ensures kept { (spec : NetworkSpec) (w : World)
        → IsCoherent spec → HasPast spec w → KeepsAssets spec w }
    ensures paid { (spec : NetworkSpec) (w : World)
        → IsCoherent spec → HasPast spec w → PaysInFull spec w }
    ensures shaped { (spec : NetworkSpec) (w : World) → HasPast spec w → AllShaped w }
    ensures authorized { (spec : NetworkSpec) (w : World) (step : Step)
        → HasPast spec w → IsAuthorized (order_of spec) w step }
{
    law_of_conserved_networks();
    law_of_paid_messages();
    law_of_unsaturated_worlds();
    law_of_shaped_networks();
    law_of_authority();
}

/// Where memory was refused to a step of a coherent network, the network still keeps each asset and backs each derivative, with the parked
/// bundles counted, and has burned nothing in excess: a delivery's teleport has landed, or is burned as lost. A claim that is refused memory
/// changes nothing.
pub fn law_of_stopped_nets()
    ensures exec { (spec : NetworkSpec) (w now : World) (chain : ChainId) (account bytes : List ℕ)
        → IsCoherent spec → HasPast spec w
        → ExecStops w chain account bytes now → KeepsAssets spec now }
    ensures deliver { (spec : NetworkSpec) (w now : World) (from to : ChainId)
        → IsCoherent spec → HasPast spec w
        → DeliverStops w from to now → KeepsAssets spec now }
    ensures drain { (spec : NetworkSpec) (w now : World) → IsCoherent spec → HasPast spec w
        → DrainStops (order_of spec) w now → KeepsAssets spec now }
{
    law_of_conserved_networks();
    law_of_conserved_executions();
    law_of_conserved_deliveries();
    law_of_unsaturated_worlds();
    law_of_unsaturated_runs();
}

/// Where memory was refused to a step of any network, each message that waits still has one of the seven shapes, and no account has less but
/// the caller's (`caller`), or that of the sending chain at the receiver of a delivery (`sender`), of each of a drain (`drained`), or a pool's,
/// whose product doesn't fall; and none where nothing has changed (`same`).
pub fn law_of_stopped_messages()
    ensures exec { (spec : NetworkSpec) (w now : World) (chain : ChainId) (account bytes : List ℕ)
        → HasPast spec w → ExecStops w chain account bytes now → AllShaped now }
    ensures deliver { (spec : NetworkSpec) (w now : World) (from to : ChainId)
        → HasPast spec w → DeliverStops w from to now → AllShaped now }
    ensures drain { (spec : NetworkSpec) (w now : World)
        → HasPast spec w → DrainStops (order_of spec) w now → AllShaped now }
    ensures caller { (w now : World) (chain : ChainId) (account bytes : List ℕ)
        → ExecStops w chain account bytes now → HasAuthority w (Exec chain account bytes) now }
    ensures sender { (spec : NetworkSpec) (w now : World) (from to : ChainId)
        → HasPast spec w → DeliverStops w from to now → HasAuthority w (Deliver from to) now }
    ensures drained { (spec : NetworkSpec) (w now : World) → HasPast spec w
        → DrainStops (order_of spec) w now → StopsWithAuthority (order_of spec) w now }
    ensures same { (w : World) (step : Step) → HasAuthority w step w }
{
    law_of_shaped_networks();
    law_of_seven_message_shapes();
    law_of_authority();
    law_of_runs_that_send();
    law_of_delivered_messages();
    law_of_executions_spending_one_account();
}
