//! Networks that are read.
use chain_ids::ChainId;
use locations::NetworkId;
use network_config::{NetworkSpec, read_network};
use network_validity::is_valid;
use plain_lists::Listed;
use std::test::Fail;

#[test]
fn an_empty_document_is_the_relay_chain(rt: HostRuntime) -> Result<(), Fail> {
    let network = read_network(rt.alloc(), b"{}").ok().ok_or("refused")?;
    assert_eq!(rt; network.network, NetworkId::Polkadot);
    assert_eq!(rt; network.channels.items().len(), 0);
    let chains = network.chains.items();
    assert_eq!(rt; chains.len(), 1);
    let relay = &chains[0];
    assert_eq!(rt; relay.chain, ChainId::Relay);
    assert_eq!(rt; relay.max_holding, 64);
    assert_eq!(rt; relay.rules.max_instructions, 100);
    assert_eq!(rt; relay.rules.unit.ref_time, 1000);
    assert_eq!(rt; relay.limit.proof_size, 5_242_880);
    assert_eq!(rt; relay.barriers.items().len(), 3);
    Ok(())
}

#[test]
fn chains_stand_in_order(rt: HostRuntime) -> Result<(), Fail> {
    let document =
        br#"{"chains":[{"para":9},{"para":7},{"max_holding":20}],"channels":[{"from":9,"to":7}]}"#;
    let network = read_network(rt.alloc(), document).ok().ok_or("refused")?;
    let chains = network.chains.items();
    assert_eq!(rt; chains.len(), 3);
    assert_eq!(rt; chains[0].chain, ChainId::Relay);
    assert_eq!(rt; chains[0].max_holding, 20);
    assert_eq!(rt; chains[1].chain, ChainId::Para(7));
    assert_eq!(rt; chains[2].chain, ChainId::Para(9));
    let channels = network.channels.items();
    assert_eq!(rt; channels.len(), 1);
    assert_eq!(rt; channels[0].from, ChainId::Para(9));
    assert_eq!(rt; channels[0].channel.to, ChainId::Para(7));
    assert_eq!(rt; channels[0].channel.capacity, 32);
    Ok(())
}

#[test]
fn a_network_that_is_read_is_valid(rt: HostRuntime) -> Result<(), Fail> {
    let alloc = rt.alloc();
    let document = br#"{"chains":[{"para":7}],"channels":[{"from":"relay","to":7}]}"#;
    let read = read_network(alloc, document).ok().ok_or("refused")?;
    assert!(rt; is_valid(alloc, &read)?);
    let NetworkSpec {
        network,
        chains,
        channels,
    } = read;
    let of_ethereum = NetworkSpec {
        network: NetworkId::Ethereum { chain_id: 1 },
        chains,
        channels,
    };
    assert!(rt; !is_valid(alloc, &of_ethereum)?);
    let NetworkSpec {
        network: _,
        chains,
        channels,
    } = of_ethereum;
    let mut turned = channels.into_vec();
    for channel in turned.iter_mut() {
        channel.channel.to = channel.from;
    }
    let to_itself = NetworkSpec {
        network,
        chains,
        channels: Listed::from_vec(turned),
    };
    assert!(rt; !is_valid(alloc, &to_itself)?);
    let no_chain = NetworkSpec {
        network,
        chains: Listed::from_vec(Vec::new(alloc)),
        channels: Listed::from_vec(Vec::new(alloc)),
    };
    assert!(rt; !is_valid(alloc, &no_chain)?);
    Ok(())
}
