//! Outside values of headers, epitaphs, handles and ordinals.

/// A name, `header`, `epitaph`, `status` (of an epitaph, as its one field) or `member` (of a table whose member 1 is bytes that have to be
/// there), the bytes, and what is read; a name, `handle`, the bytes, the
/// handles, and what is read; a full name, `ordinal`, and the ordinal's digits; or a name, `method`, an ordinal, its method, and `event` where it
/// is the event's.
pub const HEADS: &[u8] = b"
header_plain | header | 01000000020000014c01b891c67ff240 | Ok(Header { txid: 1, flexible: false, ordinal: 4679943453616374092 })
header_flexible | header | 01000000020080014c01b891c67ff240 | Ok(Header { txid: 1, flexible: true, ordinal: 4679943453616374092 })
header_largest_numbers | header | [ff*4]02008001[ff*8] | Ok(Header { txid: 4294967295, flexible: true, ordinal: 18446744073709551615 })
header_all_zero_but_version_and_magic | header | [00*4]02000001[00*8] | Ok(Header { txid: 0, flexible: false, ordinal: 0 })
header_bytes_behind_it | header | 01000000020000014c01b891c67ff24005[00*7] | Ok(Header { txid: 1, flexible: false, ordinal: 4679943453616374092 })
header_empty | header | - | Err(WireFault { at: 0, what: Short })
header_one_byte | header | 01 | Err(WireFault { at: 1, what: Short })
header_fifteen_bytes | header | 01000000020000014c01b891c67ff2 | Err(WireFault { at: 15, what: Short })
header_magic_zero | header | 01000000020000004c01b891c67ff240 | Err(WireFault { at: 7, what: Magic })
header_magic_two | header | 01000000020000024c01b891c67ff240 | Err(WireFault { at: 7, what: Magic })
header_version_bit_clear | header | 01[00*6]014c01b891c67ff240 | Err(WireFault { at: 4, what: Version })
header_version_bit_clear_all_others_set | header | 01000000fd0000014c01b891c67ff240 | Err(WireFault { at: 4, what: Version })
header_other_at_rest_bits_set | header | 01000000ffff00014c01b891c67ff240 | Ok(Header { txid: 1, flexible: false, ordinal: 4679943453616374092 })
header_version_bit_in_the_second_byte | header | 01[00*4]0200014c01b891c67ff240 | Err(WireFault { at: 4, what: Version })
header_byte_overflow | header | 01000000020040014c01b891c67ff240 | Err(WireFault { at: 6, what: Overflow })
header_byte_overflow_and_flexible | header | 010000000200c0014c01b891c67ff240 | Err(WireFault { at: 6, what: Overflow })
header_all_dynamic_bits_but_overflow | header | 010000000200bf014c01b891c67ff240 | Ok(Header { txid: 1, flexible: true, ordinal: 4679943453616374092 })
header_low_dynamic_bits | header | 0100000002003f014c01b891c67ff240 | Ok(Header { txid: 1, flexible: false, ordinal: 4679943453616374092 })
header_magic_before_version | header | 01[00*7]4c01b891c67ff240 | Err(WireFault { at: 7, what: Magic })
header_version_before_overflow | header | 01[00*5]40014c01b891c67ff240 | Err(WireFault { at: 4, what: Version })
header_magic_before_all | header | 01[00*5]40ff4c01b891c67ff240 | Err(WireFault { at: 7, what: Magic })
header_short_before_magic | header | 01[00*5]40004c01b891c67ff2 | Err(WireFault { at: 15, what: Short })
epitaph_not_found | epitaph | [00*4]02000001[ff*8]e7ffffff[00*4] | Some(-25)
epitaph_status_zero | epitaph | [00*4]02000001[ff*8][00*8] | Some(0)
epitaph_status_positive | epitaph | [00*4]02000001[ff*8]05[00*7] | Some(5)
epitaph_status_least | epitaph | [00*4]02000001[ff*8]00000080[00*4] | Some(-2147483648)
epitaph_other_header_bits | epitaph | [00*4]ffffbf01[ff*8]e7ffffff[00*4] | Some(-25)
epitaph_overflow_bit | epitaph | [00*4]02004001[ff*8]e7ffffff[00*4] | None
epitaph_with_a_txid | epitaph | 0100000002000001[ff*8]e7ffffff[00*4] | None
epitaph_another_ordinal | epitaph | [00*4]02000001[ff*7]7fe7ffffff[00*4] | None
epitaph_last_four_not_zero | epitaph | [00*4]02000001[ff*8]e7ffffff00000001 | None
epitaph_one_byte_less | epitaph | [00*4]02000001[ff*8]e7ffffff000000 | None
epitaph_one_byte_more | epitaph | [00*4]02000001[ff*8]e7ffffff[00*5] | None
epitaph_header_alone | epitaph | [00*4]02000001[ff*8] | None
epitaph_nothing | epitaph | - | None
epitaph_magic_zero | epitaph | [00*4]02000000[ff*8]e7ffffff[00*4] | None
epitaph_version_clear | epitaph | [00*7]01[ff*8]e7ffffff[00*4] | None
epitaph | status | [00*4]02000001[ff*8]e7ffffff[00*4] | Ok(-25)
epitaph_three_bytes | status | [00*4]02000001[ff*8]e7ffff | Err(WireFault { at: 19, what: Short })
handle_endpoint | handle | [00*4]02000001[ff*8]ffffffff[00*4] | 7 | Ok(Some(Endpoint(7)))
handle_token | handle | [00*4]02000001[ff*8]ffffffff[00*4] | 2147483648 | Ok(Some(Token(2147483648)))
handle_absent | handle | [00*4]02000001[ff*8][00*8] | - | Ok(None)
handle_neither | handle | [00*4]02000001[ff*8]01[00*7] | 7 | Err(WireFault { at: 16, what: Presence })
handle_none_left | handle | [00*4]02000001[ff*8]ffffffff[00*4] | - | Err(WireFault { at: 16, what: Handles })
table_bytes_target | member | 0600000002000001f33198e8a52e2c7401[00*7][ff*8]18[00*7]03[00*7][ff*8]662f78[00*5] | Ok([102, 47, 120])
table_bytes_empty_target | member | 0600000002000001f33198e8a52e2c7401[00*7][ff*8]10[00*15][ff*8] | Ok([])
table_bytes_skipped_member | member | 0600000002000001f33198e8a52e2c7402[00*7][ff*8]18[00*7]08[00*7]01[00*7][ff*8]78[00*7][ff*8] | Ok([120])
table_bytes_no_member | member | 0600000002000001f33198e8a52e2c74[00*8][ff*8] | Err(WireFault { at: 16, what: Envelope })
table_bytes_absent_member | member | 0600000002000001f33198e8a52e2c7401[00*7][ff*8][00*8] | Err(WireFault { at: 16, what: Envelope })
table_bytes_other_member_alone | member | 0600000002000001f33198e8a52e2c7402[00*7][ff*8][00*14]0100 | Err(WireFault { at: 16, what: Envelope })
table_bytes_no_member_before_trailing | member | 0600000002000001f33198e8a52e2c74[00*8][ff*8][00*8] | Err(WireFault { at: 16, what: Envelope })
table_bytes_other_member_wrong_first | member | 0600000002000001f33198e8a52e2c7402[00*7][ff*8][00*8]04[00*7] | Err(WireFault { at: 40, what: Envelope })
table_bytes_member_inlined | member | 0600000002000001f33198e8a52e2c7401[00*7][ff*8]04[00*5]0100 | Err(WireFault { at: 32, what: Envelope })
table_bytes_vector_presence | member | 0600000002000001f33198e8a52e2c7401[00*7][ff*8]10[00*23] | Err(WireFault { at: 40, what: Presence })
table_bytes_vector_count | member | 0600000002000001f33198e8a52e2c7401[00*7][ff*8]10[00*7]01[00*7][ff*8] | Err(WireFault { at: 40, what: Count })
table_bytes_vector_padding | member | 0600000002000001f33198e8a52e2c7401[00*7][ff*8]18[00*7]03[00*7][ff*8]662f78[00*4]01 | Err(WireFault { at: 63, what: Padding })
table_bytes_byte_count_too_small | member | 0600000002000001f33198e8a52e2c7401[00*7][ff*8]10[00*7]03[00*7][ff*8]662f78[00*5] | Err(WireFault { at: 32, what: Envelope })
table_bytes_struct_past_the_end | member | 0600000002000001f33198e8a52e2c7401[00*7][ff*8]08[00*15] | Err(WireFault { at: 32, what: Envelope })
table_bytes_presence_zero | member | 0600000002000001f33198e8a52e2c74[00*16] | Err(WireFault { at: 16, what: Presence })
table_bytes_bytes_over | member | 0600000002000001f33198e8a52e2c7401[00*7][ff*8]18[00*7]03[00*7][ff*8]662f78[00*13] | Err(WireFault { at: 64, what: Trailing })
zero | method | 0 | None | -
five | method | 5 | None | -
the_top_bit | method | 0x8000000000000000 | None | -
the_largest | method | 0xffffffffffffffff | None | -
read_without_its_top_byte | method | 0x00f27fc691b8014c | None | -
read | method | 0x40f27fc691b8014c | Some(Read) | -
read_with_the_top_bit | method | 0xc0f27fc691b8014c | None | -
on_representation | method | 0x5cb40567d80a510c | None | event
fuchsia.unknown/Cloneable.Clone | ordinal | 20d8a7aba2168a79
fuchsia.unknown/Closeable.Close | ordinal | 74f5d243849cb458
fuchsia.unknown/Queryable.Query | ordinal | 2658edee9decfc06
fuchsia.io/Node.GetAttributes | ordinal | 3d4396a638ea053b
fuchsia.io/Node.Sync | ordinal | 2c5c27ca0ab5dc49
fuchsia.io/Directory.Open | ordinal | 2fbc4fbbff7c54d6
fuchsia.io/Directory.ReadDirents | ordinal | 05b0cc592a6b9114
fuchsia.io/Directory.Rewind | ordinal | 7dc7b115f8054759
fuchsia.io/Directory.GetToken | ordinal | 2c1dcc2d5577ea0b
fuchsia.io/Directory.Rename | ordinal | 7060e7723b9928de
fuchsia.io/Directory.Link | ordinal | 03aab44598a68146
fuchsia.io/Directory.Unlink | ordinal | 750a0326a78d7bed
fuchsia.io/Directory.Watch | ordinal | 72d330b9a551d879
fuchsia.io/Readable.Read | ordinal | 40f27fc691b8014c
fuchsia.io/File.ReadAt | ordinal | 1607a293a60d723e
fuchsia.io/Writable.Write | ordinal | 49900528c63b0185
fuchsia.io/File.WriteAt | ordinal | 793eefc0045e792b
fuchsia.io/File.Seek | ordinal | 78079168162c5207
fuchsia.io/File.Resize | ordinal | 2b80825f0535743a
fuchsia.examples/Echo.EchoString | ordinal | 75b8274e52d9a616
fuchsia.io/Node.OnRepresentation | ordinal | 5cb40567d80a510c
fuchsia.io/Directory.CreateSymlink | ordinal | 21ce0f19ec043889
fuchsia.io/Symlink.Describe | ordinal | 742c2ea5e89831f3
fuchsia.io/Linkable.LinkInto | ordinal | 54f3949246a03e74
";
