//! The names of fields.
ghost use Rattle.std.specs.Prelude.{◌≡◌};
ghost use Rattle.message_text.specs.Names.{name_text};

/// A field of an instruction or of a query (XCM format).
#[derive(Clone, Copy)]
pub(crate) enum FieldName {
    /// `assets`.
    Assets,
    /// `query_id`.
    QueryId,
    /// `max_weight`.
    MaxWeight,
    /// `querier`.
    Querier,
    /// `beneficiary`.
    Beneficiary,
    /// `dest`.
    Dest,
    /// `origin_kind`.
    OriginKind,
    /// `require_weight_at_most`.
    RequireWeightAtMost,
    /// `call`.
    Call,
    /// `sender`.
    Sender,
    /// `max_message_size`.
    MaxMessageSize,
    /// `max_capacity`.
    MaxCapacity,
    /// `recipient`.
    Recipient,
    /// `initiator`.
    Initiator,
    /// `interior`.
    Interior,
    /// `give`.
    Give,
    /// `want`.
    Want,
    /// `maximal`.
    Maximal,
    /// `reserve`.
    Reserve,
    /// `fees`.
    Fees,
    /// `limit`.
    Limit,
    /// `ticket`.
    Ticket,
    /// `code`.
    Code,
    /// `max_response_weight`.
    MaxResponseWeight,
    /// `origin`.
    Origin,
    /// `error`.
    Error,
    /// `status`.
    Status,
    /// `module_name`.
    ModuleName,
    /// `index`.
    Index,
    /// `name`.
    Name,
    /// `crate_major`.
    CrateMajor,
    /// `min_crate_minor`.
    MinCrateMinor,
    /// `junction`.
    Junction,
    /// `network`.
    Network,
    /// `destination`.
    Destination,
    /// `asset`.
    Asset,
    /// `unlocker`.
    Unlocker,
    /// `target`.
    Target,
    /// `owner`.
    Owner,
    /// `locker`.
    Locker,
    /// `jit_withdraw`.
    JitWithdraw,
    /// `topic`.
    Topic,
    /// `check_origin`.
    CheckOrigin,
    /// `xcm`.
    Xcm,
    /// `info`.
    Info,
    /// `response`.
    Response,
}

/// The name.
#[tactic(auto, unfolding(crate::specs::Names::name_text))]
pub(crate) fn name_text(name: FieldName) -> &'static str
    ensures { result.now ≡ name_text name }
{
    match name {
        FieldName::Assets => "assets",
        FieldName::QueryId => "query_id",
        FieldName::MaxWeight => "max_weight",
        FieldName::Querier => "querier",
        FieldName::Beneficiary => "beneficiary",
        FieldName::Dest => "dest",
        FieldName::OriginKind => "origin_kind",
        FieldName::RequireWeightAtMost => "require_weight_at_most",
        FieldName::Call => "call",
        FieldName::Sender => "sender",
        FieldName::MaxMessageSize => "max_message_size",
        FieldName::MaxCapacity => "max_capacity",
        FieldName::Recipient => "recipient",
        FieldName::Initiator => "initiator",
        FieldName::Interior => "interior",
        FieldName::Give => "give",
        FieldName::Want => "want",
        FieldName::Maximal => "maximal",
        FieldName::Reserve => "reserve",
        FieldName::Fees => "fees",
        FieldName::Limit => "limit",
        FieldName::Ticket => "ticket",
        FieldName::Code => "code",
        FieldName::MaxResponseWeight => "max_response_weight",
        FieldName::Origin => "origin",
        FieldName::Error => "error",
        FieldName::Status => "status",
        FieldName::ModuleName => "module_name",
        FieldName::Index => "index",
        FieldName::Name => "name",
        FieldName::CrateMajor => "crate_major",
        FieldName::MinCrateMinor => "min_crate_minor",
        FieldName::Junction => "junction",
        FieldName::Network => "network",
        FieldName::Destination => "destination",
        FieldName::Asset => "asset",
        FieldName::Unlocker => "unlocker",
        FieldName::Target => "target",
        FieldName::Owner => "owner",
        FieldName::Locker => "locker",
        FieldName::JitWithdraw => "jit_withdraw",
        FieldName::Topic => "topic",
        FieldName::CheckOrigin => "check_origin",
        FieldName::Xcm => "xcm",
        FieldName::Info => "info",
        FieldName::Response => "response",
    }
}
