//! What a message carries.
use asset_bundles::Shipment;
use asset_lists::Assets;

/// What a message carries, under the sender's asset ids. This project's own record of what is under way.
#[derive(Drop)]
pub enum Cargo {
    /// No asset: a report, or a claim.
    Nothing,
    /// Assets that the sender put into the receiver's account there, which the receiver is told of.
    Deposit(Assets),
    /// Units on their way, as a withdrawal or a teleport.
    Away(Shipment),
}
