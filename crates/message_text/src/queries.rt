//! Queries, and what answers them.
ghost use Rattle.std.specs.Prelude.{◌≡◌, ◌++◌, ◌+◌, ◌<◌, ◌^◌, IfOk, OnOk, string_bytes};
ghost use Rattle.message_text.specs.Lines.{line};
ghost use Rattle.message_text.specs.Fields.{info_field, pallet_text, pallet_lines, response_field, response_lines, response_name, response_value};

use crate::fields::{push_list, push_location, push_number, push_weight};
use crate::lines::{push_field, push_line};
use crate::names::{FieldName, name_text};
use crate::words::{failure_text, hex_text, status_text};
use operands::{PalletInfo, QueryInfo, Response};
use std::alloc::{AllocError, Global};

/// Appends where a response goes, what it answers, and what it may weigh.
#[tactic(auto, unfolding(crate::specs::Fields::info_field))]
pub(crate) fn push_info(
    alloc: Global,
    text: &mut String,
    level: u32,
    info: &QueryInfo,
) -> Result<(), AllocError>
    requires { level + 1 < 2 ^ 32 }
    ensures { OnOk result (string_bytes text.new
        ≡ string_bytes text.old ++ info_field level info.now) }
{
    push_line(text, level, name_text(FieldName::Info))?;
    push_location(
        alloc,
        text,
        level + 1,
        FieldName::Destination,
        &info.destination,
    )?;
    push_number(alloc, text, level + 1, FieldName::QueryId, info.query_id)?;
    push_weight(
        alloc,
        text,
        level + 1,
        FieldName::MaxWeight,
        info.max_weight,
    )
}

/// A pallet.
#[tactic(auto, unfolding(crate::specs::Fields::pallet_text))]
fn pallet_text(alloc: Global, pallet: &PalletInfo) -> Result<String, AllocError>
    ensures { IfOk result (λ text. string_bytes text ≡ pallet_text pallet.now) }
{
    let name = hex_text(alloc, pallet.name.items())?;
    let module_name = hex_text(alloc, pallet.module_name.items())?;
    let (index, major, minor, patch) = (pallet.index, pallet.major, pallet.minor, pallet.patch);
    format!(in alloc; "{index} {name} {module_name} {major}.{minor}.{patch}")
}

/// Appends the line of a pallet.
fn push_pallet(
    alloc: Global,
    text: &mut String,
    level: u32,
    pallet: &PalletInfo,
) -> Result<(), AllocError>
    ensures { OnOk result (string_bytes text.new
        ≡ string_bytes text.old ++ line level (pallet_text pallet.now)) }
{
    let pallet = pallet_text(alloc, pallet)?;
    push_line(text, level, &pallet)
}

/// Appends a line for each pallet.
fn push_pallets(
    alloc: Global,
    text: &mut String,
    level: u32,
    pallets: &[PalletInfo],
) -> Result<(), AllocError>
    ensures { OnOk result (string_bytes text.new
        ≡ string_bytes text.old ++ pallet_lines level pallets.now) }
{
    for pallet in pallets {
        push_pallet(alloc, text, level, pallet)?;
    }
    Ok(())
}

/// The name of a kind of response.
#[tactic(auto, unfolding(crate::specs::Fields::response_name))]
fn response_name(response: &Response) -> &'static str
    ensures { result.now ≡ response_name response.now }
{
    match response {
        Response::Null => "Null",
        Response::Assets(_) => "Assets",
        Response::ExecutionResult(_) => "ExecutionResult",
        Response::Version(_) => "Version",
        Response::PalletsInfo(_) => "PalletsInfo",
        Response::DispatchResult(_) => "DispatchResult",
    }
}

/// What follows the name.
#[tactic(auto, unfolding(crate::specs::Fields::response_value))]
fn response_value(alloc: Global, response: &Response) -> Result<String, AllocError>
    ensures { IfOk result (λ text. string_bytes text ≡ response_value response.now) }
{
    match response {
        Response::Null | Response::Assets(_) | Response::PalletsInfo(_) => Ok(String::new(alloc)),
        Response::ExecutionResult(failed) => {
            let failed = failure_text(alloc, failed)?;
            format!(in alloc; " {failed}")
        }
        Response::Version(version) => format!(in alloc; " {version}"),
        Response::DispatchResult(status) => {
            let status = status_text(alloc, status)?;
            format!(in alloc; " {status}")
        }
    }
}

/// Appends what is below a response.
#[tactic(auto, unfolding(crate::specs::Fields::response_lines))]
fn push_response_lines(
    alloc: Global,
    text: &mut String,
    level: u32,
    response: &Response,
) -> Result<(), AllocError>
    ensures { OnOk result (string_bytes text.new
        ≡ string_bytes text.old ++ response_lines level response.now) }
{
    match response {
        Response::Assets(assets) => push_list(alloc, text, level, assets.items()),
        Response::PalletsInfo(pallets) => push_pallets(alloc, text, level, pallets.items()),
        Response::Null
        | Response::ExecutionResult(_)
        | Response::Version(_)
        | Response::DispatchResult(_) => Ok(()),
    }
}

/// Appends what a query is answered with.
pub(crate) fn push_response(
    alloc: Global,
    text: &mut String,
    level: u32,
    response: &Response,
) -> Result<(), AllocError>
    requires { level + 1 < 2 ^ 32 }
    ensures { OnOk result (string_bytes text.new
        ≡ string_bytes text.old ++ response_field level response.now) }
{
    let name = response_name(response);
    let value = response_value(alloc, response)?;
    let words = format!(in alloc; "{name}{value}")?;
    push_field(text, level, FieldName::Response, &words)?;
    push_response_lines(alloc, text, level + 1, response)
}
