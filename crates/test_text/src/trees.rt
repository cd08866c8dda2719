//! Messages as trees, one of each instruction and of each form of a field.

use message_text::message_text;
use std::alloc::Global;
use std::test::Fail;
use versioned_xcm::decode_message;

/// The hex of a message of version 4, and its tree.
const TREES: &[(&str, &str)] = &[
    (
        "04040008000000a10f010100411f01011c",
        "  WithdrawAsset\n    assets\n      0 1000\n      1/Parachain(2000) instance 0x011c\n",
    ),
    (
        "04040108000000a10f010100411f01011c",
        "  ReserveAssetDeposited\n    assets\n      0 1000\n      1/Parachain(2000) instance 0x011c\n",
    ),
    (
        "04040208000000a10f010100411f01011c",
        "  ReceiveTeleportedAsset\n    assets\n      0 1000\n      1/Parachain(2000) instance 0x011c\n",
    ),
    (
        "0404031c0201020000000aa10f910101010100411f",
        "  QueryResponse\n    query_id 7\n    response ExecutionResult 2 NotWithdrawable\n    max_weight 1000 100\n    querier 1/Parachain(2000)\n",
    ),
    (
        "04040408000000a10f010100411f01011c010100411f",
        "  TransferAsset\n    assets\n      0 1000\n      1/Parachain(2000) instance 0x011c\n    beneficiary 1/Parachain(2000)\n",
    ),
    (
        "04040508000000a10f010100411f01011c010100411f040a",
        "  TransferReserveAsset\n    assets\n      0 1000\n      1/Parachain(2000) instance 0x011c\n    dest 1/Parachain(2000)\n    xcm\n      ClearOrigin\n",
    ),
    (
        "04040603a10f91010c010203",
        "  Transact\n    origin_kind Xcm\n    require_weight_at_most 1000 100\n    call 0x010203\n",
    ),
    (
        "040407411f0200040020",
        "  HrmpNewChannelOpenRequest\n    sender 2000\n    max_message_size 65536\n    max_capacity 8\n",
    ),
    ("040408451f", "  HrmpChannelAccepted\n    recipient 2001\n"),
    (
        "040409491f411f451f",
        "  HrmpChannelClosing\n    initiator 2002\n    sender 2000\n    recipient 2001\n",
    ),
    ("04040a", "  ClearOrigin\n"),
    (
        "04040b0100411f",
        "  DescendOrigin\n    interior /Parachain(2000)\n",
    ),
    (
        "04040c010100411f1ca10f9101",
        "  ReportError\n    info\n      destination 1/Parachain(2000)\n      query_id 7\n      max_weight 1000 100\n",
    ),
    (
        "04040d0103010100411f0108010100411f",
        "  DepositAsset\n    assets AllOfCounted 1/Parachain(2000) NonFungible 2\n    beneficiary 1/Parachain(2000)\n",
    ),
    (
        "04040e0008000000a10f010100411f01011c010100411f040a",
        "  DepositReserveAsset\n    assets\n      0 1000\n      1/Parachain(2000) instance 0x011c\n    dest 1/Parachain(2000)\n    xcm\n      ClearOrigin\n",
    ),
    (
        "04040f010008000000a10f010100411f01011c01",
        "  ExchangeAsset\n    give All\n    want\n      0 1000\n      1/Parachain(2000) instance 0x011c\n    maximal true\n",
    ),
    (
        "0404100101000000010100411f040a",
        "  InitiateReserveWithdraw\n    assets AllOf 0 Fungible\n    reserve 1/Parachain(2000)\n    xcm\n      ClearOrigin\n",
    ),
    (
        "04041101020c010100411f040a",
        "  InitiateTeleport\n    assets AllCounted 3\n    dest 1/Parachain(2000)\n    xcm\n      ClearOrigin\n",
    ),
    (
        "040412010100411f1ca10f91010103010100411f0108",
        "  ReportHolding\n    info\n      destination 1/Parachain(2000)\n      query_id 7\n      max_weight 1000 100\n    assets AllOfCounted 1/Parachain(2000) NonFungible 2\n",
    ),
    (
        "0404130100001401a10f9101",
        "  BuyExecution\n    fees 1 5\n    limit Limited 1000 100\n",
    ),
    ("040414", "  RefundSurplus\n"),
    (
        "040415040a",
        "  SetErrorHandler\n    xcm\n      ClearOrigin\n",
    ),
    ("040416040a", "  SetAppendix\n    xcm\n      ClearOrigin\n"),
    ("040417", "  ClearError\n"),
    (
        "04041808000000a10f010100411f01011c010100411f",
        "  ClaimAsset\n    assets\n      0 1000\n      1/Parachain(2000) instance 0x011c\n    ticket 1/Parachain(2000)\n",
    ),
    ("040419070000000001", "  Trap\n    code 4294967296\n"),
    (
        "04041a1ca10f9101",
        "  SubscribeVersion\n    query_id 7\n    max_response_weight 1000 100\n",
    ),
    ("04041b", "  UnsubscribeVersion\n"),
    (
        "04041c08000000a10f010100411f01011c",
        "  BurnAsset\n    assets\n      0 1000\n      1/Parachain(2000) instance 0x011c\n",
    ),
    (
        "04041d08000000a10f010100411f01011c",
        "  ExpectAsset\n    assets\n      0 1000\n      1/Parachain(2000) instance 0x011c\n",
    ),
    ("04041e00", "  ExpectOrigin\n    origin none\n"),
    (
        "04041f0101000000150500000000000000",
        "  ExpectError\n    error 1 Trap(5)\n",
    ),
    (
        "04042002080102",
        "  ExpectTransactStatus\n    status TruncatedError 0x0102\n",
    ),
    (
        "0404212070616c6c65745f78010100411f1ca10f9101",
        "  QueryPallet\n    module_name 0x70616c6c65745f78\n    info\n      destination 1/Parachain(2000)\n      query_id 7\n      max_weight 1000 100\n",
    ),
    (
        "0404221004582070616c6c65745f780408",
        "  ExpectPallet\n    index 4\n    name 0x58\n    module_name 0x70616c6c65745f78\n    crate_major 1\n    min_crate_minor 2\n",
    ),
    (
        "040423010100411f1ca10f9101",
        "  ReportTransactStatus\n    info\n      destination 1/Parachain(2000)\n      query_id 7\n      max_weight 1000 100\n",
    ),
    ("040424", "  ClearTransactStatus\n"),
    (
        "0404250903",
        "  UniversalOrigin\n    junction /GlobalConsensus(Kusama)\n",
    ),
    (
        "040426020100411f040a",
        "  ExportMessage\n    network /GlobalConsensus(Polkadot)\n    destination /Parachain(2000)\n    xcm\n      ClearOrigin\n",
    ),
    (
        "04042701000014010100411f",
        "  LockAsset\n    asset 1 5\n    unlocker 1/Parachain(2000)\n",
    ),
    (
        "04042801000014010100411f",
        "  UnlockAsset\n    asset 1 5\n    target 1/Parachain(2000)\n",
    ),
    (
        "04042901000014010100411f",
        "  NoteUnlockable\n    asset 1 5\n    owner 1/Parachain(2000)\n",
    ),
    (
        "04042a01000014010100411f",
        "  RequestUnlock\n    asset 1 5\n    locker 1/Parachain(2000)\n",
    ),
    ("04042b01", "  SetFeesMode\n    jit_withdraw true\n"),
    (
        "04042c4444444444444444444444444444444444444444444444444444444444444444",
        "  SetTopic\n    topic 0x4444444444444444444444444444444444444444444444444444444444444444\n",
    ),
    ("04042d", "  ClearTopic\n"),
    (
        "04042e010100411f",
        "  AliasOrigin\n    target 1/Parachain(2000)\n",
    ),
    (
        "04042f01a10f910101010100411f",
        "  UnpaidExecution\n    limit Limited 1000 100\n    check_origin 1/Parachain(2000)\n",
    ),
    (
        "0404030400000000",
        "  QueryResponse\n    query_id 1\n    response Null\n    max_weight 0 0\n    querier none\n",
    ),
    (
        "04040304010400000004000000",
        "  QueryResponse\n    query_id 1\n    response Assets\n      0 1\n    max_weight 0 0\n    querier none\n",
    ),
    (
        "040403040200000000",
        "  QueryResponse\n    query_id 1\n    response ExecutionResult none\n    max_weight 0 0\n    querier none\n",
    ),
    (
        "040403040304000000000000",
        "  QueryResponse\n    query_id 1\n    response Version 4\n    max_weight 0 0\n    querier none\n",
    ),
    (
        "04040304040408046108626304080c000000",
        "  QueryResponse\n    query_id 1\n    response PalletsInfo\n      2 0x61 0x6263 1.2.3\n    max_weight 0 0\n    querier none\n",
    ),
    (
        "040403040500000000",
        "  QueryResponse\n    query_id 1\n    response DispatchResult Success\n    max_weight 0 0\n    querier none\n",
    ),
    (
        "04040304050204ff000000",
        "  QueryResponse\n    query_id 1\n    response DispatchResult TruncatedError 0xff\n    max_weight 0 0\n    querier none\n",
    ),
    (
        "04040d01020c0000",
        "  DepositAsset\n    assets AllCounted 3\n    beneficiary 0\n",
    ),
    (
        "04040601000000",
        "  Transact\n    origin_kind SovereignAccount\n    require_weight_at_most 0 0\n    call 0x\n",
    ),
    ("04040b00", "  DescendOrigin\n    interior /\n"),
    ("04041600", "  SetAppendix\n    xcm\n"),
    (
        "0408150416040a17",
        "  SetErrorHandler\n    xcm\n      SetAppendix\n        xcm\n          ClearOrigin\n  ClearError\n",
    ),
    ("04041f00", "  ExpectError\n    error none\n"),
    (
        "04042f0000",
        "  UnpaidExecution\n    limit Unlimited\n    check_origin none\n",
    ),
    ("04042000", "  ExpectTransactStatus\n    status Success\n"),
    (
        "04042607040000",
        "  ExportMessage\n    network /0x090704\n    destination /\n    xcm\n",
    ),
    ("04042b00", "  SetFeesMode\n    jit_withdraw false\n"),
    (
        "040425090704",
        "  UniversalOrigin\n    junction /0x090704\n",
    ),
];

/// Whether the message has this tree.
fn is_right(alloc: Global, digits: &str, tree: &str) -> Result<bool, Fail> {
    let bytes = hex::decode(alloc, digits)?;
    let program = decode_message(alloc, bytes.as_slice())?;
    let text = message_text(alloc, 1, &program)?;
    Ok(text.as_str() == tree)
}

#[test]
fn messages_have_their_trees(rt: HostRuntime) -> Result<(), Fail> {
    for (digits, tree) in TREES {
        assert!(rt; is_right(rt.alloc(), digits, tree)?, "{digits}");
    }
    Ok(())
}
