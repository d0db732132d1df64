//! Outside values of a client: what it does in order, row by row. A row has a name and
//!
//! - `send`, an endpoint, a transaction id and a request, and the frame that is sent, or why none
//!   is; `write` and `echo` have the bytes of a Write and of an EchoString in place of a request;
//! - `note`, the same with a method, the watcher that it brings, and what noting the call answers;
//! - `take`, a frame, and what it is to the client;
//! - `hang up`, an endpoint and the frame that is sent; or `waiting`, and how many calls wait.

/// A file is opened, asked and closed, and a directory is opened; and the longest message.
pub const FILE: &[u8] = b"
a file is opened | send | 1 | 0 | open d/f | 01000000010100004800000002[00*7]02000001d6547cffbb4fbc2f03[00*7][ff*8]12[00*5]01[00*9][ff*12][00*4]642f66[00*5]
its attributes are asked for | send | 2 | 3 | attributes | 02000000010000001800000003000000020000013b05ea38a696433d37[00*7]
it is read | send | 2 | 4 | read | 02000000010000001800000004000000020000014c01b891c67ff24064[00*7]
it is asked what it is | send | 2 | 5 | query | 020000000100000010000000050000000200000106fcec9deeed5826
it is closed | send | 2 | 6 | close | 020000000100000010000000060000000200000158b49c8443d2f574
a call that waits | send | 2 | 6 | sync | Busy
a byte too many | write | 2 | 6 | [61*65505] | TooLong
a directory is opened | send | 1 | 0 | open d | 01000000010100004800000002[00*7]02000001d6547cffbb4fbc2f01[00*7][ff*8]c001[00*14][ff*12][00*4]64[00*7]
four calls wait | waiting | 4
the longest message | write | 2 | 7 | [61*65504] | 0200000001[00*5]0100070000000200000185013bc628059049e0ff[00*6][ff*8][61*65504]
";

/// The requests that no other rows send, in frames around their outside values, and a text that is
/// one byte too long.
pub const EACH: &[u8] = b"
a clone | send | 2 | 0 | clone | 02000000010100001800000005000000[00*4]02000001798a16a2aba7d820[ff*4][00*4]
entries | send | 2 | 2 | entries | 020000000100000018000000020000000200000114916b2a59ccb0050020[00*6]
from the front again | send | 2 | 3 | rewind | 0200000001000000100000000300000002000001594705f815b1c77d
a token | send | 2 | 4 | token | 02000000010000001000000004000000020000010bea77552dcc1d2c
a new name, with the token's number as a handle | send | 2 | 5 | rename | 020000000101000048000000000000800500000002000001de28993b72e7607001[00*7][ff*12][00*4]01[00*7][ff*8]61[00*7]62[00*7]
a second name, with another token | send | 2 | 6 | link | 0200000001010000480000000100008006000000020000014681a69845b4aa0301[00*7][ff*12][00*4]01[00*7][ff*8]66[00*7]67[00*7]
a name less | send | 2 | 7 | unlink | 0200000001000000380000000700000002000001ed7b8da726030a7501[00*7][ff*8][00*8][ff*8]66[00*7]
a directory less | send | 2 | 8 | unlink a directory | 0200000001000000480000000800000002000001ed7b8da726030a7501[00*7][ff*8]01[00*7][ff*8]66[00*7]08[00*7]01[00*7]
a part | send | 2 | 9 | read at | 02000000010000002000000009000000020000013e720da693a2071605[00*7]06[00*7]
a byte | write | 2 | 10 | 78 | 0200000001000000280000000a0000000200000185013bc62805904901[00*7][ff*8]78[00*7]
two bytes far behind | send | 2 | 11 | write at | 0200000001000000300000000b000000020000012b795e04c0ef3e7902[00*7][ff*10][00*6]2121[00*6]
one back | send | 2 | 12 | seek | 0200000001000000200000000c0000000200000107522c166891077801[00*7][ff*8]
a size | send | 2 | 13 | resize | 0200000001000000180000000d000000020000013a7435055f82802b010001[00*5]
a word | echo | 2 | 14 | 6869 | 0200000001000000280000000e0000000200000116a6d9524e27b87502[00*7][ff*8]6869[00*6]
a text that is a byte too long | echo | 2 | 15 | [61*65505] | TooLong
thirteen calls wait | waiting | 13
the longest text | echo | 2 | 15 | [61*65504] | 0200000001[00*5]01000f0000000200000116a6d9524e27b875e0ff[00*6][ff*8][61*65504]
";

/// The exchange of the document of `io_client`.
pub const EXCHANGE: &[u8] = b"
a file is opened | send | 1 | 0 | open d/f | 01000000010100004800000002[00*7]02000001d6547cffbb4fbc2f03[00*7][ff*8]12[00*5]01[00*9][ff*12][00*4]642f66[00*5]
it is read | send | 2 | 4 | read | 02000000010000001800000004000000020000014c01b891c67ff24064[00*7]
a directory is watched | send | 1 | 3 | watch | 01000000010100002000000003000000030000000200000179d851a5b930d3721f[00*7][ff*4][00*4]
two calls wait | waiting | 2
the file is open | take | 020000000100000030[00*7]020000010c510ad86705b45c03[00*7]10[00*15][ff*8] | Event(File)
its bytes | take | 02000000010000004000000004000000020000014c01b891c67ff24001[00*7]20[00*7]0b[00*7][ff*8]68656c6c6f20776f726c64[00*5] | Reply(4, Payload(Read, 'hello world'))
the watch is there | take | 010000000100000018000000030000000200000179d851a5b930d372[00*8] | Reply(3, Settled(Watch))
what the directory has | take | 03000000010000000600000003012e030164 | Watch(Events { bytes: x'03012e030164' })
that was all | take | 0300000001000000020000000400 | Watch(Events { bytes: x'0400' })
no call waits | waiting | 0
the file is hung up | hang up | 2 | 0200000002[00*7]
";

/// Calls that wait, and frames that come back.
pub const TAKEN: &[u8] = b"
a call | note | 2 | 3 | GetAttributes | - | Ok(())
a call | note | 2 | 4 | Read | - | Ok(())
a call | note | 2 | 5 | Query | - | Ok(())
a call | note | 2 | 6 | Close | - | Ok(())
a call | note | 2 | 7 | Sync | - | Ok(())
a call | note | 2 | 8 | Sync | - | Ok(())
a call | note | 2 | 9 | Sync | - | Ok(())
a call | note | 2 | 10 | Sync | - | Ok(())
a call | note | 3 | 3 | Watch | 9 | Ok(())
a call with the number of one that waits | note | 3 | 3 | Sync | - | Err(Busy)
the event | take | 020000000100000030[00*7]020000010c510ad86705b45c03[00*7]10[00*15][ff*8] | Event(File)
a reply with attributes | take | 02000000010000009800000003000000020000013b05ea38a696433d01[00*7]78[00*15][ff*8]06[00*7][ff*8]08[00*7]08[00*7]08[00*15]08[00*7]08[00*7]04[00*7]16[00*7]0b[00*7]01[00*7]03[00*7] | Reply(3, Attributes(Attributes { protocols: Some(4), abilities: Some(22), content_size: Some(11), link_count: Some(1), id: Some(3) }))
a second reply to one call | take | 02000000010000009800000003000000020000013b05ea38a696433d01[00*7]78[00*15][ff*8]06[00*7][ff*8]08[00*7]08[00*7]08[00*15]08[00*7]08[00*7]04[00*7]16[00*7]0b[00*7]01[00*7]03[00*7] | Unmatched { endpoint: 2, txid: 3 }
a reply with bytes | take | 02000000010000004000000004000000020000014c01b891c67ff24001[00*7]20[00*7]0b[00*7][ff*8]68656c6c6f20776f726c64[00*5] | Reply(4, Payload(Read, 'hello world'))
a reply with a text | take | 020000000100000030000000050000000200000106fcec9deeed58260f[00*7][ff*8]667563687369612e696f2f46696c6500 | Reply(5, Payload(Query, 'fuchsia.io/File'))
the reply to Close | take | 020000000100000020000000060000000200000158b49c8443d2f57401[00*13]0100 | Reply(6, Done(Close))
a Close frame | take | 0200000002[00*7] | Closed
the reply to Watch | take | 030000000100000018000000030000000200000179d851a5b930d372[00*8] | Reply(3, Settled(Watch))
events to a watcher | take | 09000000010000000600000003012e030166 | Watch(Events { bytes: x'03012e030166' })
one event | take | 090000000100000003000000010162 | Watch(Events { bytes: x'010162' })
the last of a snapshot | take | 0900000001000000020000000400 | Watch(Events { bytes: x'0400' })
a Refused frame | take | 010000000500000004000000f5ffffff | Refused(-11)
a Refused frame on a watched endpoint | take | 090000000500000004000000f5ffffff | Refused(-11)
an epitaph | take | 020000000100000018[00*7]02000001[ff*8]e7ffffff[00*4] | Epitaph(-25)
an epitaph with a handle | take | 02000000010100001800000005[00*7]02000001[ff*8]e7ffffff[00*4] | Epitaph(-25)
an epitaph with a flaw in its header | take | 020000000100000018[00*7]02000000[ff*8]e7ffffff[00*4] | Bad(WireFault { at: 7, what: Magic })
no epitaph for its last byte | take | 020000000100000018[00*7]02000001[ff*8]e7ffffff00000001 | Unmatched { endpoint: 2, txid: 0 }
a call | note | 2 | 12 | Sync | - | Ok(())
no epitaph for its txid, which is that of a call | take | 0200000001000000180000000c00000002000001[ff*8]e7ffffff[00*4] | Bad(WireFault { at: 8, what: Ordinal })
its call waits no more | take | 0200000001000000200000000c0000000200000149dcb50aca275c2c01[00*13]0100 | Unmatched { endpoint: 2, txid: 12 }
a flaw in the header of a reply to a call that waits | take | 0200000001000000100000000700000002[00*11] | Bad(WireFault { at: 7, what: Magic })
the reply to another method | take | 020000000100000020000000070000000200000158b49c8443d2f57401[00*13]0100 | Bad(WireFault { at: 8, what: Ordinal })
its call waits no more | take | 020000000100000020000000070000000200000158b49c8443d2f57401[00*13]0100 | Unmatched { endpoint: 2, txid: 7 }
a Close frame on a watched endpoint | take | 0900000002[00*7] | Closed
an epitaph on a watched endpoint | take | 090000000100000018[00*7]02000001[ff*8]e7ffffff[00*4] | Watch(Events { bytes: x'0000000002000001ffffffffffffffffe7ffffff00000000' })
the event on a watched endpoint, with a handle | take | 09000000010100003000000005[00*7]020000010c510ad86705b45c03[00*7]10[00*15][ff*8] | Watch(Events { bytes: x'00000000020000010c510ad86705b45c030000000000000010000000000000000000000000000000ffffffffffffffff' })
the event with a txid | take | 02000000010000003000000003000000020000010c510ad86705b45c03[00*7]10[00*15][ff*8] | Bad(WireFault { at: 0, what: Txid })
the event with the txid of a call that waits | take | 02000000010000003000000008000000020000010c510ad86705b45c03[00*7]10[00*15][ff*8] | Bad(WireFault { at: 0, what: Txid })
the event with a flaw in its header | take | 020000000100000030[00*7]020000000c510ad86705b45c03[00*7]10[00*15][ff*8] | Bad(WireFault { at: 7, what: Magic })
the event with a fault | take | 020000000100000030[00*7]020000010c510ad86705b45c04[00*7]10[00*15][ff*8] | Bad(WireFault { at: 16, what: Ordinal })
the event with a handle | take | 02000000010100003000000005[00*7]020000010c510ad86705b45c03[00*7]10[00*15][ff*8] | Event(File)
a framework error | take | 020000000100000020000000080000000200800149dcb50aca275c2c03[00*7]feffffff00000100 | Reply(8, Unknown(3196473584242777161))
a framework error of another method | take | 020000000100000020000000090000000200800106fcec9deeed582603[00*7]feffffff00000100 | Bad(WireFault { at: 8, what: Ordinal })
its call waits no more | take | 020000000100000020000000090000000200000149dcb50aca275c2c01[00*13]0100 | Unmatched { endpoint: 2, txid: 9 }
a flawed reply | take | 0200000001000000280000000a0000000200000149dcb50aca275c2c01[00*13]01[00*9] | Bad(WireFault { at: 32, what: Trailing })
its call waits no more | take | 0200000001000000200000000a0000000200000149dcb50aca275c2c01[00*13]0100 | Unmatched { endpoint: 2, txid: 10 }
a reply before its call | take | 0200000001000000200000000b0000000200000149dcb50aca275c2c01[00*13]0100 | Unmatched { endpoint: 2, txid: 11 }
a call | note | 2 | 11 | Sync | - | Ok(())
the same reply behind its call | take | 0200000001000000200000000b0000000200000149dcb50aca275c2c01[00*13]0100 | Reply(11, Done(Sync))
a call | note | 2 | 13 | Sync | - | Ok(())
a reply on another endpoint than its call | take | 0300000001000000200000000d0000000200000149dcb50aca275c2c01[00*13]0100 | Unmatched { endpoint: 3, txid: 13 }
a reply with a handle | take | 020000000101000020000000050000000d0000000200000149dcb50aca275c2c01[00*13]0100 | Bad(WireFault { at: 32, what: Handles })
no call waits | waiting | 0
";
