//! What a document is read as, in words.
use network_config::{NetworkFault, Place, Section, read_network};
use std::alloc::Global;
use std::process::Abort;
use std::test::Fail;

/// The text of the fault of a document, or `read`.
pub(crate) fn said(alloc: Global, document: &[u8]) -> Result<String, Fail> {
    match read_network(alloc, document) {
        Ok(_) => Ok(String::from_str(alloc, "read")?),
        Err(fault) => Ok(format!(in alloc; "{fault}")?),
    }
}

/// Asserts what each document is read as.
pub(crate) fn all_are(rt: &impl Abort, alloc: Global, rows: &[(&str, &str)]) -> Result<(), Fail> {
    for (document, expected) in rows {
        let text = said(alloc, document.as_bytes())?;
        assert_eq!(rt; text.as_str(), *expected, "{document}");
    }
    Ok(())
}

#[test]
fn a_fault_has_a_text(rt: HostRuntime) -> Result<(), Fail> {
    let place = Place {
        chain: Some(3),
        section: Section::Accounts,
        index: 7,
    };
    let text = format!(in rt.alloc(); "{}", NetworkFault::Repeated(place))?;
    assert_eq!(rt; text.as_str(), "Repeated at chains 3 accounts 7");
    let text = format!(in rt.alloc(); "{}", NetworkFault::Memory)?;
    assert_eq!(rt; text.as_str(), "out of memory");
    Ok(())
}
