//! What is said of the network of a document.
use network_coherence::coherent;
use network_config::read_network;
use std::alloc::Global;
use std::process::Abort;
use std::test::Fail;

/// The cause with its two chains, or `coherent`.
fn said(alloc: Global, document: &str) -> Result<String, Fail> {
    let network = read_network(alloc, document.as_bytes())
        .ok()
        .ok_or("refused")?;
    match coherent(&network) {
        Ok(()) => Ok(String::from_str(alloc, "coherent")?),
        Err(found) => Ok(format!(in alloc; "{found}")?),
    }
}

/// Asserts what is said of each network.
pub(crate) fn all_are(rt: &impl Abort, alloc: Global, rows: &[(&str, &str)]) -> Result<(), Fail> {
    for (document, expected) in rows {
        let text = said(alloc, document)?;
        assert_eq!(rt; text.as_str(), *expected, "{document}");
    }
    Ok(())
}
