//! Outside values of replies and of the event.

/// A name, `reply` or `event`, the bytes, the handles, what reading them answers, and whether writing that gives the `same` bytes and handles
/// or `other` ones.
pub const REPLIES: &[u8] = b"
close_done | reply | 020000000200000158b49c8443d2f57401[00*13]0100 | - | Ok((2, Done(Close))) | same
sync_done | reply | 020000000200000149dcb50aca275c2c01[00*13]0100 | - | Ok((2, Done(Sync))) | same
rename_done | reply | 0200000002000001de28993b72e7607001[00*13]0100 | - | Ok((2, Done(Rename))) | same
unlink_done | reply | 0200000002000001ed7b8da726030a7501[00*13]0100 | - | Ok((2, Done(Unlink))) | same
resize_done | reply | 02000000020000013a7435055f82802b01[00*13]0100 | - | Ok((2, Done(Resize))) | same
createsymlink_done_unknown | reply | 0200000002000001893804ec190fce2101[00*13]0100 | - | Err(WireFault { at: 8, what: Ordinal }) | -
read_fails | reply | 02000000020000014c01b891c67ff24002[00*7]f5ffffff00000100 | - | Ok((2, Fails(Read, BadHandle))) | same
rename_fails_internal | reply | 0200000002000001de28993b72e7607002[00*7][ff*4]00000100 | - | Ok((2, Fails(Rename, Internal))) | same
rename_fails_not_supported | reply | 0200000002000001de28993b72e7607002[00*7]feffffff00000100 | - | Ok((2, Fails(Rename, NotSupported))) | same
rename_fails_no_resources | reply | 0200000002000001de28993b72e7607002[00*7]fdffffff00000100 | - | Ok((2, Fails(Rename, NoResources))) | same
rename_fails_no_memory | reply | 0200000002000001de28993b72e7607002[00*7]fcffffff00000100 | - | Ok((2, Fails(Rename, NoMemory))) | same
rename_fails_invalid_args | reply | 0200000002000001de28993b72e7607002[00*7]f6ffffff00000100 | - | Ok((2, Fails(Rename, InvalidArgs))) | same
rename_fails_wrong_type | reply | 0200000002000001de28993b72e7607002[00*7]f4ffffff00000100 | - | Ok((2, Fails(Rename, WrongType))) | same
rename_fails_out_of_range | reply | 0200000002000001de28993b72e7607002[00*7]f2ffffff00000100 | - | Ok((2, Fails(Rename, OutOfRange))) | same
rename_fails_buffer_too_small | reply | 0200000002000001de28993b72e7607002[00*7]f1ffffff00000100 | - | Ok((2, Fails(Rename, BufferTooSmall))) | same
rename_fails_bad_state | reply | 0200000002000001de28993b72e7607002[00*7]ecffffff00000100 | - | Ok((2, Fails(Rename, BadState))) | same
rename_fails_should_wait | reply | 0200000002000001de28993b72e7607002[00*7]eaffffff00000100 | - | Ok((2, Fails(Rename, ShouldWait))) | same
rename_fails_peer_closed | reply | 0200000002000001de28993b72e7607002[00*7]e8ffffff00000100 | - | Ok((2, Fails(Rename, PeerClosed))) | same
rename_fails_not_found | reply | 0200000002000001de28993b72e7607002[00*7]e7ffffff00000100 | - | Ok((2, Fails(Rename, NotFound))) | same
rename_fails_already_exists | reply | 0200000002000001de28993b72e7607002[00*7]e6ffffff00000100 | - | Ok((2, Fails(Rename, AlreadyExists))) | same
rename_fails_access_denied | reply | 0200000002000001de28993b72e7607002[00*7]e2ffffff00000100 | - | Ok((2, Fails(Rename, AccessDenied))) | same
rename_fails_not_dir | reply | 0200000002000001de28993b72e7607002[00*7]cdffffff00000100 | - | Ok((2, Fails(Rename, NotDir))) | same
rename_fails_not_file | reply | 0200000002000001de28993b72e7607002[00*7]ccffffff00000100 | - | Ok((2, Fails(Rename, NotFile))) | same
rename_fails_file_big | reply | 0200000002000001de28993b72e7607002[00*7]cbffffff00000100 | - | Ok((2, Fails(Rename, FileBig))) | same
rename_fails_no_space | reply | 0200000002000001de28993b72e7607002[00*7]caffffff00000100 | - | Ok((2, Fails(Rename, NoSpace))) | same
rename_fails_not_empty | reply | 0200000002000001de28993b72e7607002[00*7]c9ffffff00000100 | - | Ok((2, Fails(Rename, NotEmpty))) | same
close_fails | reply | 020000000200000158b49c8443d2f57402[00*7]f5ffffff00000100 | - | Ok((2, Fails(Close, BadHandle))) | same
getattributes_fails | reply | 02000000020000013b05ea38a696433d02[00*7]f5ffffff00000100 | - | Ok((2, Fails(GetAttributes, BadHandle))) | same
sync_fails | reply | 020000000200000149dcb50aca275c2c02[00*7]f5ffffff00000100 | - | Ok((2, Fails(Sync, BadHandle))) | same
unlink_fails | reply | 0200000002000001ed7b8da726030a7502[00*7]f5ffffff00000100 | - | Ok((2, Fails(Unlink, BadHandle))) | same
readat_fails | reply | 02000000020000013e720da693a2071602[00*7]f5ffffff00000100 | - | Ok((2, Fails(ReadAt, BadHandle))) | same
write_fails | reply | 020000000200000185013bc62805904902[00*7]f5ffffff00000100 | - | Ok((2, Fails(Write, BadHandle))) | same
writeat_fails | reply | 02000000020000012b795e04c0ef3e7902[00*7]f5ffffff00000100 | - | Ok((2, Fails(WriteAt, BadHandle))) | same
seek_fails | reply | 020000000200000107522c166891077802[00*7]f5ffffff00000100 | - | Ok((2, Fails(Seek, BadHandle))) | same
resize_fails | reply | 02000000020000013a7435055f82802b02[00*7]f5ffffff00000100 | - | Ok((2, Fails(Resize, BadHandle))) | same
write_number | reply | 050000000200000185013bc62805904901[00*7]08[00*7]01[00*7] | - | Ok((5, Number(Write, 1))) | same
write_at_number | reply | 05000000020000012b795e04c0ef3e7901[00*7]08[00*8]20[00*6] | - | Ok((5, Number(WriteAt, 8192))) | same
seek_number | reply | 050000000200000107522c166891077801[00*7]08[00*7][ff*7]7f | - | Ok((5, Number(Seek, 9223372036854775807))) | same
read_bytes | reply | 01000000020000014c01b891c67ff24001[00*7]18[00*7]05[00*7][ff*8]68656c6c6f000000 | - | Ok((1, Payload(Read, 'hello'))) | same
read_nothing | reply | 02000000020000014c01b891c67ff24001[00*7]10[00*15][ff*8] | - | Ok((2, Payload(Read, ''))) | same
read_8192_bytes | reply | 01000000020000014c01b891c67ff24001[00*7]1020[00*7]20[00*6][ff*8][7a*8192] | - | Ok((1, Payload(Read, x'[7a*8192]'))) | same
read_at_bytes | reply | 01000000020000013e720da693a2071601[00*7]18[00*7]02[00*7][ff*8]0078[00*6] | - | Ok((1, Payload(ReadAt, x'0078'))) | same
query_file | reply | 050000000200000106fcec9deeed58260f[00*7][ff*8]667563687369612e696f2f46696c6500 | - | Ok((5, Payload(Query, 'fuchsia.io/File'))) | same
query_nothing | reply | 050000000200000106fcec9deeed5826[00*8][ff*8] | - | Ok((5, Payload(Query, ''))) | same
query_no_text | reply | 050000000200000106fcec9deeed582601[00*7][ff*9][00*7] | - | Ok((5, Payload(Query, x'ff'))) | same
echo_reply | reply | 050000000200000116a6d9524e27b87502[00*7][ff*8]6869[00*6] | - | Ok((5, Payload(EchoString, 'hi'))) | same
echo_reply_nothing | reply | 050000000200000116a6d9524e27b875[00*8][ff*8] | - | Ok((5, Payload(EchoString, ''))) | same
read_dirents_list | reply | 030000000200000114916b2a59ccb005[00*8]0b[00*7][ff*8]01[00*7]01042e[00*5] | - | Ok((3, Payload(ReadDirents, x'010000000000000001042e'))) | same
read_dirents_empty | reply | 030000000200000114916b2a59ccb005[00*16][ff*8] | - | Ok((3, Payload(ReadDirents, ''))) | same
read_dirents_fails | reply | 030000000200000114916b2a59ccb005f1ffffff[00*12][ff*8] | - | Ok((3, Fails(ReadDirents, BufferTooSmall))) | same
rewind_settled | reply | 0400000002000001594705f815b1c77d[00*8] | - | Ok((4, Settled(Rewind))) | same
rewind_fails | reply | 0400000002000001594705f815b1c77df5ffffff[00*4] | - | Ok((4, Fails(Rewind, BadHandle))) | same
link_settled | reply | 04000000020000014681a69845b4aa03[00*8] | - | Ok((4, Settled(Link))) | same
link_fails | reply | 04000000020000014681a69845b4aa03f5ffffff[00*4] | - | Ok((4, Fails(Link, BadHandle))) | same
watch_settled | reply | 040000000200000179d851a5b930d372[00*8] | - | Ok((4, Settled(Watch))) | same
watch_fails | reply | 040000000200000179d851a5b930d372f5ffffff[00*4] | - | Ok((4, Fails(Watch, BadHandle))) | same
reply_get_token | reply | 03000000020000010bea77552dcc1d2c[00*4][ff*4] | 2147483648 | Ok((3, Token(2147483648))) | same
get_token_fails | reply | 03000000020000010bea77552dcc1d2cfdffffff[00*4] | - | Ok((3, Fails(GetToken, NoResources))) | same
attributes_all | reply | 03000000020000013b05ea38a696433d01[00*7]78[00*15][ff*8]06[00*7][ff*8]08[00*7]08[00*7]08[00*15]08[00*7]08[00*7]04[00*7]16[00*7]0b[00*7]01[00*7]03[00*7] | - | Ok((3, Attributes(Attributes { protocols: Some(4), abilities: Some(22), content_size: Some(11), link_count: Some(1), id: Some(3) }))) | same
attributes_id_alone | reply | 08000000020000013b05ea38a696433d01[00*7]58[00*15][ff*8]06[00*7][ff*8][00*40]08[00*7]08[00*7] | - | Ok((8, Attributes(Attributes { protocols: None, abilities: None, content_size: None, link_count: None, id: Some(8) }))) | same
attributes_none | reply | 08000000020000013b05ea38a696433d01[00*7]20[00*15][ff*8][00*8][ff*8] | - | Ok((8, Attributes(Attributes { protocols: None, abilities: None, content_size: None, link_count: None, id: None }))) | same
attributes_storage_size_skipped | reply | 08000000020000013b05ea38a696433d01[00*7]48[00*15][ff*8]04[00*7][ff*8][00*24]08[00*7]4d[00*7] | - | Ok((8, Attributes(Attributes { protocols: None, abilities: None, content_size: None, link_count: None, id: None }))) | other
attributes_storage_size_inlined | reply | 08000000020000013b05ea38a696433d01[00*7]40[00*15][ff*8]04[00*7][ff*8][00*24]4d[00*5]0100 | - | Ok((8, Attributes(Attributes { protocols: None, abilities: None, content_size: None, link_count: None, id: None }))) | other
attributes_unknown_member | reply | 08000000020000013b05ea38a696433d01[00*7]7000000001[00*11][ff*8]07[00*7][ff*8]08[00*47]100000000100000002[00*7][ff*16] | 9 | Ok((8, Attributes(Attributes { protocols: Some(2), abilities: None, content_size: None, link_count: None, id: None }))) | other
attributes_mutable_member_skipped | reply | 08000000020000013b05ea38a696433d01[00*7]30[00*7]01[00*7][ff*8][00*8][ff*8]08[00*7]01[00*7] | - | Ok((8, Attributes(Attributes { protocols: None, abilities: None, content_size: None, link_count: None, id: None }))) | other
attributes_mutable_handle | reply | 08000000020000013b05ea38a696433d01[00*7]280000000100000001[00*7][ff*8][00*8][ff*8][00*4]01000100 | 2147483648 | Ok((8, Attributes(Attributes { protocols: None, abilities: None, content_size: None, link_count: None, id: None }))) | other
attributes_trailing_absent | reply | 08000000020000013b05ea38a696433d01[00*7]40[00*15][ff*8]03[00*7][ff*8]08[00*23]02[00*7] | - | Ok((8, Attributes(Attributes { protocols: Some(2), abilities: None, content_size: None, link_count: None, id: None }))) | other
framework_error | reply | 070000000200800105[00*7]03[00*7]feffffff00000100 | - | Ok((7, Unknown(5))) | same
framework_error_known | reply | 070000000200800149dcb50aca275c2c03[00*7]feffffff00000100 | - | Ok((7, Unknown(3196473584242777161))) | same
framework_error_not_flexible | reply | 070000000200000106fcec9deeed582603[00*7]feffffff00000100 | - | Ok((7, Unknown(2763219980499352582))) | other
framework_error_one_way | reply | 0700000002008001d6547cffbb4fbc2f03[00*7]feffffff00000100 | - | Ok((7, Unknown(3439711884268033238))) | same
framework_error_event | reply | 07000000020080010c510ad86705b45c03[00*7]feffffff00000100 | - | Ok((7, Unknown(6679970090861613324))) | same
framework_error_epitaph | reply | 0700000002008001[ff*8]03[00*7]feffffff00000100 | - | Ok((7, Unknown(18446744073709551615))) | same
reply_flexible | reply | 070000000200800149dcb50aca275c2c01[00*13]0100 | - | Ok((7, Done(Sync))) | other
framework_error_txid_zero | reply | [00*4]0200800149dcb50aca275c2c03[00*7]feffffff00000100 | - | Err(WireFault { at: 0, what: Txid }) | -
framework_error_txid_zero_unknown | reply | [00*4]0200800105[00*7]03[00*7]feffffff00000100 | - | Err(WireFault { at: 8, what: Ordinal }) | -
framework_error_with_a_handle | reply | 070000000200800149dcb50aca275c2c03[00*7]feffffff00000100 | 3 | Err(WireFault { at: 16, what: Ordinal }) | -
framework_error_with_a_handle_plain | reply | 070000000200800106fcec9deeed582603[00*7]feffffff00000100 | 3 | Err(WireFault { at: 16, what: Presence }) | -
framework_error_minus_three | reply | 070000000200800149dcb50aca275c2c03[00*7]fdffffff00000100 | - | Err(WireFault { at: 16, what: Ordinal }) | -
framework_error_bytes_over | reply | 070000000200800149dcb50aca275c2c03[00*7]feffffff000001[00*9] | - | Err(WireFault { at: 16, what: Ordinal }) | -
framework_error_unknown_bytes_over | reply | 070000000200800105[00*7]03[00*7]feffffff000001[00*9] | - | Err(WireFault { at: 8, what: Ordinal }) | -
framework_error_out_of_line | reply | 070000000200800149dcb50aca275c2c03[00*7]08[00*7]feffffff[00*4] | - | Err(WireFault { at: 16, what: Ordinal }) | -
framework_error_bad_magic | reply | 070000000200800005[00*7]03[00*7]feffffff00000100 | - | Err(WireFault { at: 7, what: Magic }) | -
reply_of_open | reply | 0200000002000001d6547cffbb4fbc2f | - | Err(WireFault { at: 8, what: Ordinal }) | -
reply_of_clone | reply | 0200000002000001798a16a2aba7d82001[00*13]0100 | - | Err(WireFault { at: 8, what: Ordinal }) | -
reply_unknown_ordinal | reply | 020000000200000105[00*7]01[00*13]0100 | - | Err(WireFault { at: 8, what: Ordinal }) | -
reply_event_ordinal | reply | 02000000020000010c510ad86705b45c01[00*13]0100 | - | Err(WireFault { at: 8, what: Ordinal }) | -
reply_epitaph_ordinal | reply | [00*4]02000001[ff*8]f5ffffff[00*4] | - | Err(WireFault { at: 8, what: Ordinal }) | -
reply_txid_zero | reply | [00*4]0200000149dcb50aca275c2c01[00*13]0100 | - | Err(WireFault { at: 0, what: Txid }) | -
ordinal_before_txid | reply | [00*4]0200000105[00*7]01[00*13]0100 | - | Err(WireFault { at: 8, what: Ordinal }) | -
txid_before_short_reply | reply | [00*4]0200000149dcb50aca275c2c | - | Err(WireFault { at: 0, what: Txid }) | -
reply_short_header | reply | 020000000200000149dcb50aca275c | - | Err(WireFault { at: 15, what: Short }) | -
reply_short | reply | 020000000200000149dcb50aca275c2c | - | Err(WireFault { at: 16, what: Short }) | -
reply_one_byte_short | reply | 020000000200000149dcb50aca275c2c01[00*13]01 | - | Err(WireFault { at: 31, what: Short }) | -
rewind_without_its_padding | reply | 0200000002000001594705f815b1c77d[00*4] | - | Err(WireFault { at: 20, what: Short }) | -
read_dirents_short | reply | 020000000200000114916b2a59ccb005[00*23] | - | Err(WireFault { at: 39, what: Short }) | -
union_ordinal_zero | reply | 020000000200000149dcb50aca275c2c[00*14]0100 | - | Err(WireFault { at: 16, what: Ordinal }) | -
union_ordinal_four | reply | 020000000200000149dcb50aca275c2c04[00*13]0100 | - | Err(WireFault { at: 16, what: Ordinal }) | -
union_ordinal_high | reply | 02000000020000014c01b891c67ff24001[00*6]8010[00*15][ff*8] | - | Err(WireFault { at: 16, what: Ordinal }) | -
union_ordinal_before_envelope | reply | 020000000200000149dcb50aca275c2c[00*16] | - | Err(WireFault { at: 16, what: Ordinal }) | -
union_envelope_absent | reply | 020000000200000149dcb50aca275c2c01[00*15] | - | Err(WireFault { at: 24, what: Envelope }) | -
union_error_absent | reply | 020000000200000149dcb50aca275c2c02[00*15] | - | Err(WireFault { at: 24, what: Envelope }) | -
success_out_of_line | reply | 020000000200000149dcb50aca275c2c01[00*7]08[00*15] | - | Err(WireFault { at: 24, what: Envelope }) | -
error_out_of_line | reply | 02000000020000014c01b891c67ff24002[00*7]08[00*7]f5ffffff[00*4] | - | Err(WireFault { at: 24, what: Envelope }) | -
error_out_of_line_counts_handles | reply | 02000000020000014c01b891c67ff24002[00*7]0800000003000000f5ffffff[00*4] | - | Err(WireFault { at: 24, what: Envelope }) | -
error_flag_two | reply | 02000000020000014c01b891c67ff24002[00*7]f5ffffff00000200 | - | Err(WireFault { at: 24, what: Envelope }) | -
read_success_inlined | reply | 02000000020000014c01b891c67ff24001[00*7]05[00*5]0100 | - | Err(WireFault { at: 24, what: Envelope }) | -
read_success_inlined_counts_handles | reply | 02000000020000014c01b891c67ff24001[00*7]0500000002000100 | - | Err(WireFault { at: 24, what: Envelope }) | -
error_counts_a_handle | reply | 020000000200000149dcb50aca275c2c02[00*7]f5ffffff01000100 | 3 | Err(WireFault { at: 24, what: Envelope }) | -
error_counts_a_missing_handle | reply | 020000000200000149dcb50aca275c2c02[00*7]f5ffffff01000100 | - | Err(WireFault { at: 24, what: Handles }) | -
success_counts_a_handle | reply | 020000000200000149dcb50aca275c2c01[00*11]01000100 | 3 | Err(WireFault { at: 24, what: Envelope }) | -
success_counts_a_missing_handle | reply | 020000000200000149dcb50aca275c2c01[00*11]01000100 | - | Err(WireFault { at: 24, what: Handles }) | -
success_byte_not_zero | reply | 020000000200000149dcb50aca275c2c01[00*7]01[00*5]0100 | - | Err(WireFault { at: 24, what: Padding }) | -
success_padding_second | reply | 020000000200000149dcb50aca275c2c01[00*8]01[00*4]0100 | - | Err(WireFault { at: 25, what: Padding }) | -
success_padding_last | reply | 020000000200000149dcb50aca275c2c01[00*10]0100000100 | - | Err(WireFault { at: 27, what: Padding }) | -
success_padding_before_its_handle | reply | 020000000200000149dcb50aca275c2c01[00*8]01000001000100 | 3 | Err(WireFault { at: 25, what: Padding }) | -
number_byte_count_four | reply | 020000000200000185013bc62805904901[00*7]04[00*7]01[00*7] | - | Err(WireFault { at: 24, what: Envelope }) | -
number_byte_count_zero_with_a_handle | reply | 020000000200000185013bc62805904901[00*11]0100000001[00*7] | 3 | Err(WireFault { at: 24, what: Envelope }) | -
number_missing | reply | 020000000200000185013bc62805904901[00*7]08[00*7] | - | Err(WireFault { at: 24, what: Envelope }) | -
number_byte_count_sixteen | reply | 020000000200000185013bc62805904901[00*7]10[00*7]01[00*15] | - | Err(WireFault { at: 24, what: Envelope }) | -
number_byte_count_sixteen_of_eight | reply | 020000000200000185013bc62805904901[00*7]10[00*7]01[00*7] | - | Err(WireFault { at: 24, what: Envelope }) | -
number_bytes_over | reply | 020000000200000185013bc62805904901[00*7]08[00*7]01[00*15] | - | Err(WireFault { at: 40, what: Trailing }) | -
bytes_byte_count_too_small | reply | 02000000020000014c01b891c67ff24001[00*7]10[00*7]05[00*7][ff*8]68656c6c6f000000 | - | Err(WireFault { at: 24, what: Envelope }) | -
bytes_byte_count_too_large | reply | 02000000020000014c01b891c67ff24001[00*7]20[00*7]05[00*7][ff*8]68656c6c6f[00*11] | - | Err(WireFault { at: 24, what: Envelope }) | -
bytes_struct_past_the_end | reply | 02000000020000014c01b891c67ff24001[00*7]08[00*15] | - | Err(WireFault { at: 24, what: Envelope }) | -
bytes_presence_zero | reply | 02000000020000014c01b891c67ff24001[00*7]18[00*7]05[00*15]68656c6c6f000000 | - | Err(WireFault { at: 32, what: Presence }) | -
bytes_presence_before_the_counts | reply | 02000000020000014c01b891c67ff24001[00*7]10[00*7]05[00*15]68656c6c6f000000 | - | Err(WireFault { at: 32, what: Presence }) | -
bytes_count_past_the_end | reply | 02000000020000014c01b891c67ff24001[00*7]18[00*7]09[00*7][ff*8]68656c6c6f000000 | - | Err(WireFault { at: 32, what: Count }) | -
bytes_padding | reply | 02000000020000014c01b891c67ff24001[00*7]18[00*7]05[00*7][ff*8]68656c6c6f000001 | - | Err(WireFault { at: 55, what: Padding }) | -
bytes_envelope_counts_a_handle | reply | 02000000020000014c01b891c67ff24001[00*7]180000000100000005[00*7][ff*8]68656c6c6f000000 | 3 | Err(WireFault { at: 24, what: Envelope }) | -
bytes_envelope_counts_a_missing_handle | reply | 02000000020000014c01b891c67ff24001[00*7]180000000100000005[00*7][ff*8]68656c6c6f000000 | - | Err(WireFault { at: 24, what: Handles }) | -
done_bytes_over | reply | 020000000200000149dcb50aca275c2c01[00*13]010000 | - | Err(WireFault { at: 32, what: Trailing }) | -
done_with_a_handle | reply | 020000000200000149dcb50aca275c2c01[00*13]0100 | 3 | Err(WireFault { at: 32, what: Handles }) | -
query_presence_zero | reply | 020000000200000106fcec9deeed582601[00*15]78[00*7] | - | Err(WireFault { at: 16, what: Presence }) | -
query_count_past_the_end | reply | 020000000200000106fcec9deeed582609[00*7][ff*8][00*8] | - | Err(WireFault { at: 16, what: Count }) | -
query_padding | reply | 020000000200000106fcec9deeed582601[00*7][ff*8]780001[00*5] | - | Err(WireFault { at: 34, what: Padding }) | -
query_with_a_handle | reply | 020000000200000106fcec9deeed582601[00*7][ff*8]78[00*7] | 3 | Err(WireFault { at: 40, what: Handles }) | -
echo_reply_not_utf8 | reply | 020000000200000116a6d9524e27b87501[00*7][ff*9][00*7] | - | Err(WireFault { at: 16, what: Utf8 }) | -
rewind_padding | reply | 0200000002000001594705f815b1c77d[00*7]01 | - | Err(WireFault { at: 23, what: Padding }) | -
rewind_bytes_over | reply | 0200000002000001594705f815b1c77d[00*16] | - | Err(WireFault { at: 24, what: Trailing }) | -
read_dirents_padding | reply | 020000000200000114916b2a59ccb005[00*4]01[00*11][ff*8] | - | Err(WireFault { at: 20, what: Padding }) | -
read_dirents_presence_zero | reply | 020000000200000114916b2a59ccb005f1ffffff[00*20] | - | Err(WireFault { at: 24, what: Presence }) | -
token_word_one | reply | 02000000020000010bea77552dcc1d2c[00*4]01000000 | 2147483648 | Err(WireFault { at: 20, what: Presence }) | -
token_no_handle | reply | 02000000020000010bea77552dcc1d2c[00*4][ff*4] | - | Err(WireFault { at: 20, what: Handles }) | -
token_endpoint | reply | 02000000020000010bea77552dcc1d2c[00*4][ff*4] | 3 | Err(WireFault { at: 20, what: Handles }) | -
token_two | reply | 02000000020000010bea77552dcc1d2c[00*4][ff*4] | 2147483648,2147483649 | Err(WireFault { at: 24, what: Handles }) | -
token_absent_with_a_handle | reply | 02000000020000010bea77552dcc1d2c[00*8] | 2147483648 | Err(WireFault { at: 24, what: Handles }) | -
status_not_named | reply | 0200000002000001594705f815b1c77df3ffffff[00*4] | - | Err(WireFault { at: 16, what: Value }) | -
status_positive | reply | 0200000002000001594705f815b1c77d01[00*7] | - | Err(WireFault { at: 16, what: Value }) | -
status_least | reply | 020000000200000179d851a5b930d37200000080[00*4] | - | Err(WireFault { at: 16, what: Value }) | -
error_zero | reply | 020000000200000149dcb50aca275c2c02[00*13]0100 | - | Err(WireFault { at: 24, what: Value }) | -
error_not_named | reply | 020000000200000149dcb50aca275c2c02[00*7]f3ffffff00000100 | - | Err(WireFault { at: 24, what: Value }) | -
error_positive | reply | 02000000020000014c01b891c67ff24002[00*7]0b[00*5]0100 | - | Err(WireFault { at: 24, what: Value }) | -
list_beside_a_status | reply | 020000000200000114916b2a59ccb005f5ffffff[00*4]01[00*7][ff*8]78[00*7] | - | Err(WireFault { at: 16, what: Value }) | -
token_beside_a_status | reply | 02000000020000010bea77552dcc1d2cfd[ff*7] | 2147483648 | Err(WireFault { at: 16, what: Value }) | -
token_missing | reply | 02000000020000010bea77552dcc1d2c[00*8] | - | Err(WireFault { at: 16, what: Value }) | -
token_missing_status_not_named | reply | 02000000020000010bea77552dcc1d2cf3ffffff[00*4] | - | Err(WireFault { at: 16, what: Value }) | -
value_behind_trailing | reply | 020000000200000149dcb50aca275c2c02[00*13]01[00*9] | - | Err(WireFault { at: 32, what: Trailing }) | -
value_behind_handles | reply | 020000000200000149dcb50aca275c2c02[00*13]0100 | 3 | Err(WireFault { at: 32, what: Handles }) | -
value_behind_padding | reply | 0200000002000001594705f815b1c77df3ffffff00000001 | - | Err(WireFault { at: 23, what: Padding }) | -
value_behind_the_token | reply | 02000000020000010bea77552dcc1d2cf3[ff*7] | - | Err(WireFault { at: 20, what: Handles }) | -
value_behind_the_list | reply | 020000000200000114916b2a59ccb005f3ffffff[00*20] | - | Err(WireFault { at: 24, what: Presence }) | -
attributes_mutable_presence | reply | 08000000020000013b05ea38a696433d01[00*7]20[00*31][ff*8] | - | Err(WireFault { at: 32, what: Presence }) | -
attributes_immutable_presence | reply | 08000000020000013b05ea38a696433d01[00*7]20[00*15][ff*8][00*16] | - | Err(WireFault { at: 48, what: Presence }) | -
attributes_immutable_count | reply | 08000000020000013b05ea38a696433d01[00*7]20[00*15][ff*8]01[00*7][ff*8] | - | Err(WireFault { at: 48, what: Count }) | -
attributes_member_inlined | reply | 08000000020000013b05ea38a696433d01[00*7]28[00*15][ff*8]01[00*7][ff*8]04[00*5]0100 | - | Err(WireFault { at: 64, what: Envelope }) | -
attributes_member_missing | reply | 08000000020000013b05ea38a696433d01[00*7]28[00*15][ff*8]01[00*7][ff*8]08[00*7] | - | Err(WireFault { at: 64, what: Envelope }) | -
attributes_member_too_large | reply | 08000000020000013b05ea38a696433d01[00*7]38[00*15][ff*8]01[00*7][ff*8]10[00*7]02[00*7]02[00*7] | - | Err(WireFault { at: 64, what: Envelope }) | -
attributes_sixth_member_wrong | reply | 08000000020000013b05ea38a696433d01[00*7]58[00*15][ff*8]06[00*7][ff*8][00*40]04[00*7]02[00*7] | - | Err(WireFault { at: 104, what: Envelope }) | -
attributes_struct_past_the_end | reply | 08000000020000013b05ea38a696433d01[00*7]08[00*15] | - | Err(WireFault { at: 24, what: Envelope }) | -
attributes_byte_count_eight | reply | 08000000020000013b05ea38a696433d01[00*7]08[00*15][ff*8][00*8][ff*8] | - | Err(WireFault { at: 24, what: Envelope }) | -
attributes_byte_count_without_members | reply | 08000000020000013b05ea38a696433d01[00*7]20[00*15][ff*8]01[00*7][ff*8]08[00*7]02[00*7] | - | Err(WireFault { at: 24, what: Envelope }) | -
attributes_handle_not_counted | reply | 08000000020000013b05ea38a696433d01[00*7]28[00*7]01[00*7][ff*8][00*8][ff*8][00*4]01000100 | 2147483648 | Err(WireFault { at: 24, what: Envelope }) | -
attributes_handle_counted_above_alone | reply | 08000000020000013b05ea38a696433d01[00*7]300000000100000001[00*7][ff*8][00*8][ff*8]08[00*7]01[00*7] | 2147483648 | Err(WireFault { at: 24, what: Envelope }) | -
attributes_inner_handle_missing | reply | 08000000020000013b05ea38a696433d01[00*7]28[00*7]01[00*7][ff*8][00*8][ff*8][00*4]01000100 | - | Err(WireFault { at: 64, what: Handles }) | -
attributes_outer_handle_missing | reply | 08000000020000013b05ea38a696433d01[00*7]280000000100000001[00*7][ff*8][00*8][ff*8][00*4]01000100 | - | Err(WireFault { at: 24, what: Handles }) | -
attributes_bytes_over | reply | 08000000020000013b05ea38a696433d01[00*7]20[00*15][ff*8][00*8][ff*8][00*8] | - | Err(WireFault { at: 64, what: Trailing }) | -
attributes_inner_before_outer | reply | 08000000020000013b05ea38a696433d01[00*7]08[00*15][ff*8]01[00*7][ff*8]04[00*7]02[00*7] | - | Err(WireFault { at: 64, what: Envelope }) | -
representation_node | event | [00*4]020000010c510ad86705b45c01[00*7]10[00*15][ff*8] | - | Ok(Node) | same
representation_directory | event | [00*4]020000010c510ad86705b45c02[00*7]10[00*15][ff*8] | - | Ok(Directory) | same
representation_file | event | [00*4]020000010c510ad86705b45c03[00*7]10[00*15][ff*8] | - | Ok(File) | same
representation_four_unknown | event | [00*4]020000010c510ad86705b45c04[00*7]10[00*15][ff*8] | - | Err(WireFault { at: 16, what: Ordinal }) | -
representation_five | event | [00*4]020000010c510ad86705b45c05[00*7]10[00*15][ff*8] | - | Err(WireFault { at: 16, what: Ordinal }) | -
representation_zero | event | [00*4]020000010c510ad86705b45c[00*8]10[00*15][ff*8] | - | Err(WireFault { at: 16, what: Ordinal }) | -
representation_flexible | event | [00*4]020080010c510ad86705b45c02[00*7]10[00*15][ff*8] | - | Ok(Directory) | other
representation_with_a_member | event | [00*4]020000010c510ad86705b45c03[00*7]20[00*7]01[00*7][ff*8]08[00*7]09[00*7] | - | Ok(File) | other
representation_with_an_absent_member | event | [00*4]020000010c510ad86705b45c03[00*7]18[00*7]01[00*7][ff*8][00*8] | - | Ok(File) | other
representation_txid | event | 01000000020000010c510ad86705b45c03[00*7]10[00*15][ff*8] | - | Err(WireFault { at: 0, what: Txid }) | -
representation_other_method | event | [00*4]02000001d6547cffbb4fbc2f03[00*7]10[00*15][ff*8] | - | Err(WireFault { at: 8, what: Ordinal }) | -
representation_ordinal_before_txid | event | 0100000002000001d6547cffbb4fbc2f03[00*7]10[00*15][ff*8] | - | Err(WireFault { at: 8, what: Ordinal }) | -
representation_absent | event | [00*4]020000010c510ad86705b45c03[00*15] | - | Err(WireFault { at: 24, what: Envelope }) | -
representation_inlined | event | [00*4]020000010c510ad86705b45c03[00*13]0100 | - | Err(WireFault { at: 24, what: Envelope }) | -
representation_byte_count_eight | event | [00*4]020000010c510ad86705b45c03[00*7]08[00*15][ff*8] | - | Err(WireFault { at: 24, what: Envelope }) | -
representation_table_missing | event | [00*4]020000010c510ad86705b45c03[00*7]10[00*7] | - | Err(WireFault { at: 24, what: Envelope }) | -
representation_half_a_table | event | [00*4]020000010c510ad86705b45c03[00*7]08[00*15] | - | Err(WireFault { at: 24, what: Envelope }) | -
representation_presence | event | [00*4]020000010c510ad86705b45c03[00*7]10[00*23] | - | Err(WireFault { at: 32, what: Presence }) | -
representation_count | event | [00*4]020000010c510ad86705b45c03[00*7]10[00*7]01[00*7][ff*8] | - | Err(WireFault { at: 32, what: Count }) | -
representation_counts_a_handle | event | [00*4]020000010c510ad86705b45c03[00*7]1000000001[00*11][ff*8] | - | Err(WireFault { at: 24, what: Handles }) | -
representation_bytes_over | event | [00*4]020000010c510ad86705b45c03[00*7]10[00*15][ff*8][00*8] | - | Err(WireFault { at: 48, what: Trailing }) | -
representation_short | event | [00*4]020000010c510ad86705b45c03[00*7] | - | Err(WireFault { at: 24, what: Short }) | -
representation_no_body | event | [00*4]020000010c510ad86705b45c | - | Err(WireFault { at: 16, what: Short }) | -
";
