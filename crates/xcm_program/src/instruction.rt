//! Instructions and programs.

ghost use Rattle.std.specs.Prelude.{◌≡◌};
ghost use Rattle.xcm_program.specs.declared.instruction.Instruction.{out-Instruction};
ghost use Rattle.xcm_program.specs.Indices.{index};
ghost use Rattle.xcm_program.specs.Texts.{instruction_name};

use crate::names::instruction_name_at;
use asset_lists::{Asset, Assets, Filter};
use locations::{Junction, Junctions, Location, NetworkId};
use operands::{
    LongBytes, MaybeError, OriginKind, QueryInfo, Response, Weight, WeightLimit, XcmError,
};
use plain_lists::{Boxed, Listed};

/// An instruction (XCM format, versions 3 and 4), in the order of the indices. A program is the last of an instruction's fields.
#[derive(Debug, Drop, PartialEq, Eq)]
pub enum Instruction {
    /// Takes assets from the origin's account into the holding register.
    WithdrawAsset {
        /// What is taken.
        assets: Assets,
    },
    /// Puts derivatives into the holding register, for assets that the origin took into its reserve.
    ReserveAssetDeposited {
        /// What was deposited, as seen from this chain.
        assets: Assets,
    },
    /// Puts assets into the holding register that the origin teleported here.
    ReceiveTeleportedAsset {
        /// What was teleported, as seen from this chain.
        assets: Assets,
    },
    /// Answers a query of this chain.
    QueryResponse {
        /// The number of the query.
        query_id: u64,
        /// What answers it.
        response: Response,
        /// The most that handling the response may weigh.
        max_weight: Weight,
        /// Who asked, as seen from the chain that answers; none where that is not told.
        querier: Boxed<Option<Location>>,
    },
    /// Moves assets from the origin's account to another.
    TransferAsset {
        /// What is moved.
        assets: Assets,
        /// Whose account takes it.
        beneficiary: Boxed<Location>,
    },
    /// Moves assets from the origin's account to that of another chain, and tells that chain.
    TransferReserveAsset {
        /// What is moved.
        assets: Assets,
        /// The other chain.
        dest: Boxed<Location>,
        /// What runs there after the notice.
        xcm: Program,
    },
    /// Dispatches a call of the chain.
    Transact {
        /// With which right.
        origin_kind: OriginKind,
        /// The most that the call may weigh.
        require_weight_at_most: Weight,
        /// The call, encoded.
        call: LongBytes,
    },
    /// Tells a chain that another wants a channel to it.
    HrmpNewChannelOpenRequest {
        /// The chain that wants it.
        sender: u32,
        /// The most bytes of a message.
        max_message_size: u32,
        /// The most messages that may wait.
        max_capacity: u32,
    },
    /// Tells a chain that its channel was accepted.
    HrmpChannelAccepted {
        /// The chain that accepted it.
        recipient: u32,
    },
    /// Tells a chain that a channel is being closed.
    HrmpChannelClosing {
        /// The chain that closes it.
        initiator: u32,
        /// The chain that sends on it.
        sender: u32,
        /// The chain that receives on it.
        recipient: u32,
    },
    /// Empties the origin register.
    ClearOrigin,
    /// Appends junctions to the origin.
    DescendOrigin {
        /// The junctions.
        interior: Boxed<Junctions>,
    },
    /// Reports the error register.
    ReportError {
        /// Where to, and for which query.
        info: Boxed<QueryInfo>,
    },
    /// Moves assets from the holding register to an account.
    DepositAsset {
        /// What is moved.
        assets: Filter,
        /// Whose account takes it.
        beneficiary: Boxed<Location>,
    },
    /// Moves assets from the holding register to the account of another chain, and tells that chain.
    DepositReserveAsset {
        /// What is moved.
        assets: Filter,
        /// The other chain.
        dest: Boxed<Location>,
        /// What runs there after the notice.
        xcm: Program,
    },
    /// Exchanges assets of the holding register for others.
    ExchangeAsset {
        /// What may be given.
        give: Filter,
        /// What is wanted at least.
        want: Assets,
        /// Whether as much as can be had is wanted.
        maximal: bool,
    },
    /// Removes derivatives from the holding register, and has their reserve withdraw the assets.
    InitiateReserveWithdraw {
        /// What is removed.
        assets: Filter,
        /// The reserve.
        reserve: Boxed<Location>,
        /// What runs there after the withdrawal.
        xcm: Program,
    },
    /// Teleports assets of the holding register to another chain.
    InitiateTeleport {
        /// What is teleported.
        assets: Filter,
        /// The other chain.
        dest: Boxed<Location>,
        /// What runs there after the arrival.
        xcm: Program,
    },
    /// Reports assets of the holding register.
    ReportHolding {
        /// Where to, and for which query.
        info: Boxed<QueryInfo>,
        /// Which assets.
        assets: Filter,
    },
    /// Pays for weight from the holding register.
    BuyExecution {
        /// The asset, and at most how much of it.
        fees: Boxed<Asset>,
        /// How much weight is bought.
        limit: WeightLimit,
    },
    /// Takes what was paid for unused weight back into the holding register.
    RefundSurplus,
    /// Sets the program that runs where an instruction fails.
    SetErrorHandler {
        /// The program.
        xcm: Program,
    },
    /// Sets the program that runs after this one.
    SetAppendix {
        /// The program.
        xcm: Program,
    },
    /// Empties the error register.
    ClearError,
    /// Takes trapped assets into the holding register.
    ClaimAsset {
        /// What was trapped.
        assets: Assets,
        /// Which trap, as the format's version tells it.
        ticket: Boxed<Location>,
    },
    /// Fails with the error `Trap` of this code.
    Trap {
        /// The sender's own number for the failure.
        code: u64,
    },
    /// Asks to be told of the chain's versions of the format.
    SubscribeVersion {
        /// The number of the query.
        query_id: u64,
        /// The most that a response may weigh.
        max_response_weight: Weight,
    },
    /// Ends such a subscription.
    UnsubscribeVersion,
    /// Destroys assets of the holding register.
    BurnAsset {
        /// What is destroyed, as far as it is held.
        assets: Assets,
    },
    /// Fails where the holding register lacks assets.
    ExpectAsset {
        /// What must be held.
        assets: Assets,
    },
    /// Fails where the origin register isn't this.
    ExpectOrigin {
        /// The origin, or none.
        origin: Boxed<Option<Location>>,
    },
    /// Fails where the error register isn't this.
    ExpectError {
        /// The instruction's index and its error, or none.
        error: Option<(u32, XcmError)>,
    },
    /// Fails where the status of the last Transact isn't this.
    ExpectTransactStatus {
        /// The status.
        status: MaybeError,
    },
    /// Reports the pallets of a module.
    QueryPallet {
        /// The module's name.
        module_name: LongBytes,
        /// Where to, and for which query.
        info: Boxed<QueryInfo>,
    },
    /// Fails where the chain has no such pallet.
    ExpectPallet {
        /// Its index in the runtime.
        index: u32,
        /// Its name.
        name: LongBytes,
        /// Its module's name.
        module_name: LongBytes,
        /// The first number of its crate's version.
        crate_major: u32,
        /// The least second number of its crate's version.
        min_crate_minor: u32,
    },
    /// Reports the status of the last Transact.
    ReportTransactStatus {
        /// Where to, and for which query.
        info: Boxed<QueryInfo>,
    },
    /// Sets the status of the last Transact to success.
    ClearTransactStatus,
    /// Sets the origin to a consensus system of its own.
    UniversalOrigin {
        /// The system's junction.
        junction: Junction,
    },
    /// Sends a program to another consensus system.
    ExportMessage {
        /// The system.
        network: NetworkId,
        /// The location in it.
        destination: Boxed<Junctions>,
        /// The program.
        xcm: Program,
    },
    /// Locks an asset of the origin.
    LockAsset {
        /// The asset.
        asset: Boxed<Asset>,
        /// Who may unlock it.
        unlocker: Boxed<Location>,
    },
    /// Unlocks an asset that the origin locked.
    UnlockAsset {
        /// The asset.
        asset: Boxed<Asset>,
        /// Whose it is.
        target: Boxed<Location>,
    },
    /// Notes that the origin has locked an asset.
    NoteUnlockable {
        /// The asset.
        asset: Boxed<Asset>,
        /// Whose it is.
        owner: Boxed<Location>,
    },
    /// Asks that a locked asset be unlocked.
    RequestUnlock {
        /// The asset.
        asset: Boxed<Asset>,
        /// Where it is locked.
        locker: Boxed<Location>,
    },
    /// Says how fees for sending are paid.
    SetFeesMode {
        /// Whether from the origin's account, instead of the holding register.
        jit_withdraw: bool,
    },
    /// Sets the topic register.
    SetTopic {
        /// The topic.
        topic: [u8; 32],
    },
    /// Empties the topic register.
    ClearTopic,
    /// Sets the origin to another that it may act as.
    AliasOrigin {
        /// The other.
        target: Boxed<Location>,
    },
    /// Asks to be executed without paying.
    UnpaidExecution {
        /// How much weight is wanted.
        limit: WeightLimit,
        /// The origin that is expected, where one is given.
        check_origin: Boxed<Option<Location>>,
    },
}

/// The instructions of a message, in the order in which they run. Contracts see it as their list.
pub type Program = Listed<Instruction>;

impl Instruction {
    /// The index that the instruction's spelling begins with (XCM format), below 48.
    pub fn index(&self) -> u8
        ensures { result ≡ index (out-Instruction self.now) }
    {
        match self {
            Instruction::WithdrawAsset { .. } => 0,
            Instruction::ReserveAssetDeposited { .. } => 1,
            Instruction::ReceiveTeleportedAsset { .. } => 2,
            Instruction::QueryResponse { .. } => 3,
            Instruction::TransferAsset { .. } => 4,
            Instruction::TransferReserveAsset { .. } => 5,
            Instruction::Transact { .. } => 6,
            Instruction::HrmpNewChannelOpenRequest { .. } => 7,
            Instruction::HrmpChannelAccepted { .. } => 8,
            Instruction::HrmpChannelClosing { .. } => 9,
            Instruction::ClearOrigin => 10,
            Instruction::DescendOrigin { .. } => 11,
            Instruction::ReportError { .. } => 12,
            Instruction::DepositAsset { .. } => 13,
            Instruction::DepositReserveAsset { .. } => 14,
            Instruction::ExchangeAsset { .. } => 15,
            Instruction::InitiateReserveWithdraw { .. } => 16,
            Instruction::InitiateTeleport { .. } => 17,
            Instruction::ReportHolding { .. } => 18,
            Instruction::BuyExecution { .. } => 19,
            Instruction::RefundSurplus => 20,
            Instruction::SetErrorHandler { .. } => 21,
            Instruction::SetAppendix { .. } => 22,
            Instruction::ClearError => 23,
            Instruction::ClaimAsset { .. } => 24,
            Instruction::Trap { .. } => 25,
            Instruction::SubscribeVersion { .. } => 26,
            Instruction::UnsubscribeVersion => 27,
            Instruction::BurnAsset { .. } => 28,
            Instruction::ExpectAsset { .. } => 29,
            Instruction::ExpectOrigin { .. } => 30,
            Instruction::ExpectError { .. } => 31,
            Instruction::ExpectTransactStatus { .. } => 32,
            Instruction::QueryPallet { .. } => 33,
            Instruction::ExpectPallet { .. } => 34,
            Instruction::ReportTransactStatus { .. } => 35,
            Instruction::ClearTransactStatus => 36,
            Instruction::UniversalOrigin { .. } => 37,
            Instruction::ExportMessage { .. } => 38,
            Instruction::LockAsset { .. } => 39,
            Instruction::UnlockAsset { .. } => 40,
            Instruction::NoteUnlockable { .. } => 41,
            Instruction::RequestUnlock { .. } => 42,
            Instruction::SetFeesMode { .. } => 43,
            Instruction::SetTopic { .. } => 44,
            Instruction::ClearTopic => 45,
            Instruction::AliasOrigin { .. } => 46,
            Instruction::UnpaidExecution { .. } => 47,
        }
    }

    /// The name in the XCM format.
    #[tactic(auto, using(crate::proofs::Lemmas::NamesFit::names_fit))]
    pub fn name(&self) -> &'static str
        ensures { result.now ≡ instruction_name (out-Instruction self.now) }
    {
        instruction_name_at(self.index())
    }
}
