//! Outside values of the link.

/// A name, `fixed`, a fixed part, and the frame that it begins on its way to the servers, and
/// either way: its endpoint, its kind, and how many handles and bytes it has; or the first reason
/// against it. Or a name, `frames`, frames that are sent over one first connection, three mount
/// ends and two servers, and which of them are refused, each with its place, its endpoint and why.
/// Before those of a `crowd` go 1,023 messages with 64 new numbers each, from 2 on.
pub const ROWS: &[u8] = b"
empty_message | fixed | 0100000001[00*7] | Ok((1, Message, 0, 0)) | Ok((1, Message, 0, 0))
message_of_24 | fixed | 010000000100000018000000 | Ok((1, Message, 0, 24)) | Ok((1, Message, 0, 24))
message_with_a_handle | fixed | 010000000101000048000000 | Ok((1, Message, 1, 72)) | Ok((1, Message, 1, 72))
largest_message | fixed | 010000000140[00*4]0100 | Ok((1, Message, 64, 65536)) | Ok((1, Message, 64, 65536))
endpoint_zero | fixed | [00*4]01[00*7] | Ok((0, Message, 0, 0)) | Ok((0, Message, 0, 0))
endpoint_largest | fixed | [ff*4]01[00*7] | Ok((4294967295, Message, 0, 0)) | Ok((4294967295, Message, 0, 0))
close | fixed | 0700000002[00*7] | Ok((7, Close, 0, 0)) | Ok((7, Close, 0, 0))
turn | fixed | [00*4]0300000004000000 | Ok((0, Turn, 0, 4)) | Ok((0, Turn, 0, 4))
turn_of_a_server_that_may_not_exist | fixed | 630000000300000004000000 | Ok((99, Turn, 0, 4)) | Ok((99, Turn, 0, 4))
pick | fixed | 0700000004[00*7] | Ok((7, Pick, 0, 0)) | Ok((7, Pick, 0, 0))
refused | fixed | 070000000500000004000000 | Err(Some(Kind)) | Ok((7, Refused, 0, 4))
kind_zero | fixed | 01[00*11] | Err(Some(Kind)) | Err(Some(Kind))
kind_six | fixed | 010000000600000004000000 | Err(Some(Kind)) | Err(Some(Kind))
kind_255 | fixed | 01000000ff[00*7] | Err(Some(Kind)) | Err(Some(Kind))
zero_low_byte | fixed | 01000000010001[00*5] | Err(Some(Zero)) | Err(Some(Zero))
zero_high_byte | fixed | 0100000001000001[00*4] | Err(Some(Zero)) | Err(Some(Zero))
zero_all_ones | fixed | 010000000200ffff[00*4] | Err(Some(Zero)) | Err(Some(Zero))
handles_65 | fixed | 010000000141[00*6] | Err(Some(Handles)) | Err(Some(Handles))
handles_255 | fixed | 0100000001ff[00*6] | Err(Some(Handles)) | Err(Some(Handles))
bytes_65537 | fixed | 010000000100000001000100 | Err(Some(Bytes)) | Err(Some(Bytes))
bytes_65537_with_a_handle | fixed | 010000000101000001000100 | Err(Some(Bytes)) | Err(Some(Bytes))
bytes_largest | fixed | 0100000001000000[ff*4] | Err(Some(Bytes)) | Err(Some(Bytes))
close_with_a_handle | fixed | 010000000201[00*6] | Err(Some(Shape)) | Err(Some(Shape))
close_with_a_byte | fixed | 010000000200000001000000 | Err(Some(Shape)) | Err(Some(Shape))
close_with_four_bytes | fixed | 010000000200000004000000 | Err(Some(Shape)) | Err(Some(Shape))
turn_without_bytes | fixed | [00*4]03[00*7] | Err(Some(Shape)) | Err(Some(Shape))
turn_of_three_bytes | fixed | [00*4]0300000003000000 | Err(Some(Shape)) | Err(Some(Shape))
turn_of_five_bytes | fixed | [00*4]0300000005000000 | Err(Some(Shape)) | Err(Some(Shape))
turn_of_eight_bytes | fixed | [00*4]0300000008000000 | Err(Some(Shape)) | Err(Some(Shape))
turn_with_a_handle | fixed | [00*4]0301000004000000 | Err(Some(Shape)) | Err(Some(Shape))
pick_with_a_handle | fixed | 010000000401[00*6] | Err(Some(Shape)) | Err(Some(Shape))
pick_with_four_bytes | fixed | 010000000400000004000000 | Err(Some(Shape)) | Err(Some(Shape))
refused_without_bytes | fixed | 0100000005[00*7] | Err(Some(Kind)) | Err(Some(Shape))
refused_of_eight_bytes | fixed | 010000000500000008000000 | Err(Some(Kind)) | Err(Some(Shape))
refused_with_a_handle | fixed | 010000000501000004000000 | Err(Some(Kind)) | Err(Some(Shape))
kind_before_zero | fixed | 01[00*5]01[00*5] | Err(Some(Kind)) | Err(Some(Kind))
refused_with_zero_set | fixed | 010000000500010004000000 | Err(Some(Kind)) | Err(Some(Zero))
zero_before_handles | fixed | 01000000014101[00*5] | Err(Some(Zero)) | Err(Some(Zero))
zero_before_shape | fixed | 010000000200010001000000 | Err(Some(Zero)) | Err(Some(Zero))
handles_before_bytes | fixed | 010000000141000001000100 | Err(Some(Handles)) | Err(Some(Handles))
handles_before_shape | fixed | 010000000241[00*6] | Err(Some(Handles)) | Err(Some(Handles))
bytes_before_shape | fixed | 010000000300000001000100 | Err(Some(Bytes)) | Err(Some(Bytes))
kind_before_all | fixed | 0100000009[ff*7] | Err(Some(Kind)) | Err(Some(Kind))
first_connection | frames | 0100000001[00*7] | []
unknown_endpoint | frames | 0200000001[00*7] | [(0, 2, BadHandle)]
endpoint_zero_sent | frames | [00*4]01[00*7] | [(0, 0, BadHandle)]
last_client_number_unused | frames | ffffff3f01[00*7] | [(0, 1073741823, BadHandle)]
message_on_a_mount_end | frames | 0000004001[00*7]0200004001[00*7] | [(0, 1073741824, BadHandle), (1, 1073741826, BadHandle)]
message_past_the_mount_ends | frames | 0300004001[00*7]ffffff7f01[00*7] | [(0, 1073741827, BadHandle), (1, 2147483647, BadHandle)]
message_on_a_token_number | frames | 0000008001[00*7][ff*4]01[00*7] | [(0, 2147483648, BadHandle), (1, 4294967295, BadHandle)]
new_endpoint_at_once | frames | 010000000101[00*6]020000000200000001[00*7]020000000101[00*6]030000000300000001[00*7] | []
used_number_again | frames | 010000000101[00*6]02000000010000000101[00*6]02000000 | [(1, 1, BadHandle)]
first_connection_as_a_handle | frames | 010000000101[00*6]01000000 | [(0, 1, BadHandle)]
own_endpoint_as_a_handle | frames | 010000000101[00*6]02000000020000000101[00*6]02000000 | [(1, 2, BadHandle)]
handle_twice | frames | 010000000102[00*6]0200000002000000010000000101[00*6]02000000 | [(0, 1, BadHandle)]
handle_zero_sent | frames | 010000000101[00*10] | [(0, 1, BadHandle)]
mount_end_as_a_handle | frames | 010000000101[00*9]40010000000101[00*6]03000040010000000101[00*6]ffffff7f | [(0, 1, BadHandle), (1, 1, BadHandle), (2, 1, BadHandle)]
last_client_number_as_a_handle | frames | 010000000101[00*6]ffffff3fffffff3f01[00*7] | []
token_never_given | frames | 010000000101[00*9]80 | [(0, 1, BadHandle)]
one_bad_of_three | frames | 010000000103[00*6]0200000003[00*7]010000000102[00*6]0200000003000000 | [(0, 1, BadHandle)]
close_then_message | frames | 0100000002[00*7]0100000001[00*7]0100000002[00*7] | [(1, 1, PeerClosed), (2, 1, PeerClosed)]
close_of_unknown | frames | 0200000002[00*11]02[00*10]4002[00*10]8002[00*7] | [(0, 2, BadHandle), (1, 0, BadHandle), (2, 1073741824, BadHandle), (3, 2147483648, BadHandle)]
close_of_a_new_endpoint | frames | 010000000101[00*6]020000000200000002[00*7]0200000001[00*7] | [(2, 2, PeerClosed)]
hung_up_before_handles | frames | 0100000002[00*7]010000000102[00*14] | [(1, 1, PeerClosed)]
picks | frames | 0100000004[00*7]0200000004[00*11]04[00*10]4004[00*7]0200004004[00*7]0300004004[00*10]8004[00*7][ff*4]04[00*7] | [(1, 2, BadHandle), (2, 0, BadHandle), (5, 1073741827, BadHandle), (6, 2147483648, BadHandle), (7, 4294967295, BadHandle)]
pick_of_a_hung_up_endpoint | frames | 0100000001[00*7]0100000002[00*7]0100000004[00*7] | [(2, 1, PeerClosed)]
pick_in_transit | frames | 010000000101[00*6]020000000200000004[00*7] | []
turns | frames | [00*4]0300000004000000010000000100000003000000040000000100000002000000030000000400000001000000[ff*4]0300000004[00*11]0300000004000000[ff*4][00*4]0300000004[00*7] | [(2, 2, BadHandle), (3, 4294967295, BadHandle)]
waiting_full | frames | [010000000100000000000000*4096]0100000001[00*7]0100000002[00*7]0100000001[00*7] | [(4096, 1, ShouldWait), (4097, 1, ShouldWait), (4098, 1, ShouldWait)]
waiting_full_of_one_close | frames | [010000000100000000000000*4095]010000000101[00*6]020000000200000002[00*7]0200000001[00*7] | [(4096, 2, ShouldWait), (4097, 2, ShouldWait)]
close_counts_as_waiting | frames | 010000000101[00*6]020000000200000002[00*7][010000000100000000000000*4094]0100000001[00*7] | [(4096, 1, ShouldWait)]
bad_handle_before_waiting | frames | [010000000100000000000000*4096]010000000101[00*10]0200000001[00*7]0200000002[00*7] | [(4096, 1, BadHandle), (4097, 2, BadHandle), (4098, 2, BadHandle)]
hung_up_before_waiting | frames | 010000000101[00*6]020000000200000002[00*7][010000000100000000000000*4094]0200000001[00*7]0200000002[00*7]0100000001[00*7] | [(4096, 2, PeerClosed), (4097, 2, PeerClosed), (4098, 1, ShouldWait)]
live_full | crowd | 01000000013c[00*6]c2ff0000c3ff0000c4ff0000c5ff0000c6ff0000c7ff0000c8ff0000c9ff0000caff0000cbff0000ccff0000cdff0000ceff0000cfff0000d0ff0000d1ff0000d2ff0000d3ff0000d4ff0000d5ff0000d6ff0000d7ff0000d8ff0000d9ff0000daff0000dbff0000dcff0000ddff0000deff0000dfff0000e0ff0000e1ff0000e2ff0000e3ff0000e4ff0000e5ff0000e6ff0000e7ff0000e8ff0000e9ff0000eaff0000ebff0000ecff0000edff0000eeff0000efff0000f0ff0000f1ff0000f2ff0000f3ff0000f4ff0000f5ff0000f6ff0000f7ff0000f8ff0000f9ff0000faff0000fbff0000fcff0000fdff0000010000000101[00*6]feff00000100000001[00*7] | [(1024, 1, NoResources)]
live_full_of_a_close | crowd | 01000000013c[00*6]c2ff0000c3ff0000c4ff0000c5ff0000c6ff0000c7ff0000c8ff0000c9ff0000caff0000cbff0000ccff0000cdff0000ceff0000cfff0000d0ff0000d1ff0000d2ff0000d3ff0000d4ff0000d5ff0000d6ff0000d7ff0000d8ff0000d9ff0000daff0000dbff0000dcff0000ddff0000deff0000dfff0000e0ff0000e1ff0000e2ff0000e3ff0000e4ff0000e5ff0000e6ff0000e7ff0000e8ff0000e9ff0000eaff0000ebff0000ecff0000edff0000eeff0000efff0000f0ff0000f1ff0000f2ff0000f3ff0000f4ff0000f5ff0000f6ff0000f7ff0000f8ff0000f9ff0000faff0000fbff0000fcff0000fdff0000010000000101[00*6]ffffff3f0200000002[00*7]010000000101[00*6]ffffff3f | [(1024, 1, NoResources), (1026, 1, NoResources)]
live_one_over_in_one_frame | crowd | 01000000013d[00*6]c2ff0000c3ff0000c4ff0000c5ff0000c6ff0000c7ff0000c8ff0000c9ff0000caff0000cbff0000ccff0000cdff0000ceff0000cfff0000d0ff0000d1ff0000d2ff0000d3ff0000d4ff0000d5ff0000d6ff0000d7ff0000d8ff0000d9ff0000daff0000dbff0000dcff0000ddff0000deff0000dfff0000e0ff0000e1ff0000e2ff0000e3ff0000e4ff0000e5ff0000e6ff0000e7ff0000e8ff0000e9ff0000eaff0000ebff0000ecff0000edff0000eeff0000efff0000f0ff0000f1ff0000f2ff0000f3ff0000f4ff0000f5ff0000f6ff0000f7ff0000f8ff0000f9ff0000faff0000fbff0000fcff0000fdff0000feff0000010000000101[00*6]40420f00 | [(1023, 1, NoResources)]
bad_handle_before_live | crowd | 01000000013c[00*6]c2ff0000c3ff0000c4ff0000c5ff0000c6ff0000c7ff0000c8ff0000c9ff0000caff0000cbff0000ccff0000cdff0000ceff0000cfff0000d0ff0000d1ff0000d2ff0000d3ff0000d4ff0000d5ff0000d6ff0000d7ff0000d8ff0000d9ff0000daff0000dbff0000dcff0000ddff0000deff0000dfff0000e0ff0000e1ff0000e2ff0000e3ff0000e4ff0000e5ff0000e6ff0000e7ff0000e8ff0000e9ff0000eaff0000ebff0000ecff0000edff0000eeff0000efff0000f0ff0000f1ff0000f2ff0000f3ff0000f4ff0000f5ff0000f6ff0000f7ff0000f8ff0000f9ff0000faff0000fbff0000fcff0000fdff0000010000000102[00*6]40420f0040420f00010000000101[00*6]40420f00 | [(1024, 1, BadHandle), (1025, 1, NoResources)]
waiting_before_live | crowd | 01000000013c[00*6]c2ff0000c3ff0000c4ff0000c5ff0000c6ff0000c7ff0000c8ff0000c9ff0000caff0000cbff0000ccff0000cdff0000ceff0000cfff0000d0ff0000d1ff0000d2ff0000d3ff0000d4ff0000d5ff0000d6ff0000d7ff0000d8ff0000d9ff0000daff0000dbff0000dcff0000ddff0000deff0000dfff0000e0ff0000e1ff0000e2ff0000e3ff0000e4ff0000e5ff0000e6ff0000e7ff0000e8ff0000e9ff0000eaff0000ebff0000ecff0000edff0000eeff0000efff0000f0ff0000f1ff0000f2ff0000f3ff0000f4ff0000f5ff0000f6ff0000f7ff0000f8ff0000f9ff0000faff0000fbff0000fcff0000fdff0000[010000000100000000000000*3072]010000000101[00*6]40420f00 | [(4096, 1, ShouldWait)]
";
