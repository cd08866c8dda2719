//! The names of instructions by their indices.

ghost use Rattle.std.specs.Prelude.{◌≡◌, [], get_or, map};
ghost use Rattle.xcm_program.specs.Names.{instruction_name_at};

/// In the order of their indices.
const NAMES: [&str; 48] = [
    "WithdrawAsset",
    "ReserveAssetDeposited",
    "ReceiveTeleportedAsset",
    "QueryResponse",
    "TransferAsset",
    "TransferReserveAsset",
    "Transact",
    "HrmpNewChannelOpenRequest",
    "HrmpChannelAccepted",
    "HrmpChannelClosing",
    "ClearOrigin",
    "DescendOrigin",
    "ReportError",
    "DepositAsset",
    "DepositReserveAsset",
    "ExchangeAsset",
    "InitiateReserveWithdraw",
    "InitiateTeleport",
    "ReportHolding",
    "BuyExecution",
    "RefundSurplus",
    "SetErrorHandler",
    "SetAppendix",
    "ClearError",
    "ClaimAsset",
    "Trap",
    "SubscribeVersion",
    "UnsubscribeVersion",
    "BurnAsset",
    "ExpectAsset",
    "ExpectOrigin",
    "ExpectError",
    "ExpectTransactStatus",
    "QueryPallet",
    "ExpectPallet",
    "ReportTransactStatus",
    "ClearTransactStatus",
    "UniversalOrigin",
    "ExportMessage",
    "LockAsset",
    "UnlockAsset",
    "NoteUnlockable",
    "RequestUnlock",
    "SetFeesMode",
    "SetTopic",
    "ClearTopic",
    "AliasOrigin",
    "UnpaidExecution",
];

/// The text at an index of a list, empty where there is none.
fn text_at(texts: &[&'static str], place: usize) -> &'static str
    ensures { result.now ≡ get_or (map (λ t. t.now) texts.now) place [] }
{
    if place >= texts.len() {
        return "";
    }
    texts[place]
}

/// The name of the instruction with this index (XCM format), empty where there is none.
#[tactic(auto, unfolding(crate::specs::Names::instruction_name_at))]
pub fn instruction_name_at(index: u8) -> &'static str
    ensures { result.now ≡ instruction_name_at index }
{
    text_at(&NAMES, usize::from(index))
}
