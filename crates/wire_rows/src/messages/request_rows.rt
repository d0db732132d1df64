//! Outside values of requests.

/// A name, the protocol of the endpoint, the bytes, the handles, what reading them answers, and whether writing that gives the `same` bytes
/// and handles or `other` ones.
pub const REQUESTS: &[u8] = b"
clone | Directory | [00*4]02000001798a16a2aba7d820[ff*4][00*4] | 5 | Ok((0, Clone { request: 5 })) | same
close | Directory | 020000000200000158b49c8443d2f574 | - | Ok((2, Close)) | same
query | Directory | 030000000200000106fcec9deeed5826 | - | Ok((3, Query)) | same
get_attributes | Directory | 04000000020000013b05ea38a696433d37[00*7] | - | Ok((4, GetAttributes { query: 55 })) | same
sync | Directory | [ff*4]0200000149dcb50aca275c2c | - | Ok((4294967295, Sync)) | same
open | Directory | [00*4]02000001d6547cffbb4fbc2f04[00*7][ff*8]02[00*15][ff*12][00*4]6e6f7065[00*4] | 2 | Ok((0, OpenPath { path: 'nope', flags: 2, attributes: None, object: 2 })) | same
open_with_attributes | Directory | [00*4]02000001d6547cffbb4fbc2f03[00*7][ff*8]060000000801000001[00*7][ff*12][00*4]642f66[00*5]08[00*7]07[00*7] | 9 | Ok((0, OpenPath { path: 'd/f', flags: 1133871366150, attributes: Some(7), object: 9 })) | same
read_dirents | Directory | 020000000200000114916b2a59ccb0050020[00*6] | - | Ok((2, ReadDirents { max_bytes: 8192 })) | same
rewind | Directory | 0200000002000001594705f815b1c77d | - | Ok((2, Rewind)) | same
get_token | Directory | 02000000020000010bea77552dcc1d2c | - | Ok((2, GetToken)) | same
rename | Directory | 0500000002000001de28993b72e7607001[00*7][ff*12][00*4]01[00*7][ff*8]61[00*7]62[00*7] | 2147483648 | Ok((5, Rename { src: 'a', token: 2147483648, dst: 'b' })) | same
rename_last_token | Directory | 0500000002000001de28993b72e760700b[00*7][ff*12][00*4]01[00*7][ff*8]6c6f6e676572206e616d65[00*5]78[00*7] | 4294967295 | Ok((5, Rename { src: 'longer name', token: 4294967295, dst: 'x' })) | same
link | Directory | 06000000020000014681a69845b4aa0301[00*7][ff*12][00*4]01[00*7][ff*8]66[00*7]67[00*7] | 2147483649 | Ok((6, Link { src: 'f', token: 2147483649, dst: 'g' })) | same
unlink | Directory | 0700000002000001ed7b8da726030a7501[00*7][ff*8][00*8][ff*8]66[00*7] | - | Ok((7, Unlink { name: 'f', flags: 0 })) | same
unlink_must_be_directory | Directory | 0700000002000001ed7b8da726030a7501[00*7][ff*8]01[00*7][ff*8]66[00*7]08[00*7]01[00*7] | - | Ok((7, Unlink { name: 'f', flags: 1 })) | same
watch | Directory | 080000000200000179d851a5b930d3721f[00*7][ff*4][00*4] | 3 | Ok((8, Watch { mask: 31, options: 0, watcher: 3 })) | same
read | File | 01000000020000014c01b891c67ff24005[00*7] | - | Ok((1, Read { count: 5 })) | same
read_at | File | 02000000020000013e720da693a2071605[00*7]06[00*7] | - | Ok((2, ReadAt { count: 5, offset: 6 })) | same
write | File | 020000000200000185013bc62805904901[00*7][ff*8]78[00*7] | - | Ok((2, Write { bytes: 'x' })) | same
write_at | File | 02000000020000012b795e04c0ef3e7902[00*7][ff*10][00*6]2121[00*6] | - | Ok((2, WriteAt { bytes: '!!', offset: 65535 })) | same
seek | File | 020000000200000107522c166891077801[00*7][ff*8] | - | Ok((2, Seek { origin: 1, offset: -1 })) | same
resize | File | 02000000020000013a7435055f82802b010001[00*5] | - | Ok((2, Resize { length: 65537 })) | same
echo_string | Echo | 020000000200000116a6d9524e27b87502[00*7][ff*8]6869[00*6] | - | Ok((2, EchoString { value: 'hi' })) | same
read_largest_count | File | 01000000020000014c01b891c67ff240[ff*8] | - | Ok((1, Read { count: 18446744073709551615 })) | same
read_at_largest | File | 01000000020000013e720da693a20716[ff*16] | - | Ok((1, ReadAt { count: 18446744073709551615, offset: 18446744073709551615 })) | same
seek_least_offset | File | 010000000200000107522c1668910778[ff*4][00*11]80 | - | Ok((1, Seek { origin: 4294967295, offset: -9223372036854775808 })) | same
watch_all_ones | Directory | 010000000200000179d851a5b930d372[ff*12][00*4] | 1073741823 | Ok((1, Watch { mask: 4294967295, options: 4294967295, watcher: 1073741823 })) | same
open_all_flag_bits | Directory | [00*4]02000001d6547cffbb4fbc2f01[00*7][ff*16][00*8][ff*12][00*4]2e[00*7] | 2 | Ok((0, OpenPath { path: '.', flags: 18446744073709551615, attributes: None, object: 2 })) | same
unlink_all_flag_bits | Directory | 0100000002000001ed7b8da726030a7501[00*7][ff*8]01[00*7][ff*8]66[00*7]08[00*7][ff*8] | - | Ok((1, Unlink { name: 'f', flags: 18446744073709551615 })) | same
handle_zero | Directory | [00*4]02000001798a16a2aba7d820[ff*4][00*4] | 0 | Ok((0, Clone { request: 0 })) | same
handle_last_endpoint_number | Directory | [00*4]02000001798a16a2aba7d820[ff*4][00*4] | 2147483647 | Ok((0, Clone { request: 2147483647 })) | same
open_empty_path | Directory | [00*4]02000001d6547cffbb4fbc2f[00*8][ff*8][00*16][ff*12][00*4] | 2 | Ok((0, OpenPath { path: '', flags: 0, attributes: None, object: 2 })) | same
rename_empty_names | Directory | 0100000002000001de28993b72e76070[00*8][ff*12][00*12][ff*8] | 2147483648 | Ok((1, Rename { src: '', token: 2147483648, dst: '' })) | same
write_nothing | File | 010000000200000185013bc628059049[00*8][ff*8] | - | Ok((1, Write { bytes: '' })) | same
echo_nothing | Echo | 010000000200000116a6d9524e27b875[00*8][ff*8] | - | Ok((1, EchoString { value: '' })) | same
write_7_bytes | File | 010000000200000185013bc62805904907[00*7][ff*8]6162636465666700 | - | Ok((1, Write { bytes: 'abcdefg' })) | same
write_8_bytes | File | 010000000200000185013bc62805904908[00*7][ff*8]6162636465666768 | - | Ok((1, Write { bytes: 'abcdefgh' })) | same
write_9_bytes | File | 010000000200000185013bc62805904909[00*7][ff*8]616263646566676869[00*7] | - | Ok((1, Write { bytes: 'abcdefghi' })) | same
echo_of_many_letters | Echo | 010000000200000116a6d9524e27b8750a[00*7][ff*8]61c3a9e282acf09f9880[00*6] | - | Ok((1, EchoString { value: x'61c3a9e282acf09f9880' })) | same
echo_with_a_zero_byte | Echo | 010000000200000116a6d9524e27b87503[00*7][ff*8]610062[00*5] | - | Ok((1, EchoString { value: x'610062' })) | same
echo_largest_character | Echo | 010000000200000116a6d9524e27b87504[00*7][ff*8]f48fbfbf[00*4] | - | Ok((1, EchoString { value: x'f48fbfbf' })) | same
write_largest_message | File | 010000000200000185013bc628059049e0ff[00*6][ff*8][61*65504] | - | Ok((1, Write { bytes: x'[61*65504]' })) | same
echo_largest_message | Echo | 010000000200000116a6d9524e27b875e0ff[00*6][ff*8][61*65504] | - | Ok((1, EchoString { value: x'[61*65504]' })) | same
write_bytes_that_are_no_text | File | 010000000200000185013bc62805904902[00*7][ff*9]fe[00*6] | - | Ok((1, Write { bytes: x'fffe' })) | same
read_flexible | File | 01000000020080014c01b891c67ff24005[00*7] | - | Ok((1, Read { count: 5 })) | other
read_other_header_bits | File | 01000000ffff3f014c01b891c67ff24005[00*7] | - | Ok((1, Read { count: 5 })) | other
open_flexible | Directory | [00*4]02008001d6547cffbb4fbc2f01[00*7][ff*8][00*16][ff*12][00*4]2e[00*7] | 2 | Ok((0, OpenPath { path: '.', flags: 0, attributes: None, object: 2 })) | other
node_read | Node | 02000000020000014c01b891c67ff24005[00*7] | - | Ok((2, Read { count: 5 })) | same
node_readdirents | Node | 020000000200000114916b2a59ccb00501[00*7] | - | Ok((2, ReadDirents { max_bytes: 1 })) | same
node_seek | Node | 020000000200000107522c1668910778[00*16] | - | Ok((2, Seek { origin: 0, offset: 0 })) | same
node_gettoken | Node | 02000000020000010bea77552dcc1d2c | - | Ok((2, GetToken)) | same
node_watch | Node | 020000000200000179d851a5b930d37201[00*7][ff*4][00*4] | 4 | Ok((2, Watch { mask: 1, options: 0, watcher: 4 })) | same
node_open | Node | [00*4]02000001d6547cffbb4fbc2f01[00*7][ff*8][00*16][ff*12][00*4]61[00*7] | 4 | Ok((0, OpenPath { path: 'a', flags: 0, attributes: None, object: 4 })) | same
sync_on_file | File | 020000000200000149dcb50aca275c2c | - | Ok((2, Sync)) | same
sync_on_node | Node | 020000000200000149dcb50aca275c2c | - | Ok((2, Sync)) | same
unknown_strict_two_way | Directory | 070000000200000105[00*7] | - | Err(UnknownStrict) | -
unknown_strict_one_way | Directory | [00*4]0200000105[00*7] | - | Err(UnknownStrict) | -
unknown_flexible_two_way | Directory | 070000000200800105[00*7] | - | Err(UnknownTwoWay { txid: 7, ordinal: 5 }) | -
unknown_flexible_one_way | Directory | [00*4]0200800105[00*7] | - | Err(UnknownOneWay) | -
unknown_with_a_body_and_handles | Directory | 070000000200800105[00*7][ff*13] | 3,2147483648 | Err(UnknownTwoWay { txid: 7, ordinal: 5 }) | -
unknown_strict_with_a_body | File | 070000000200000105[00*8] | 3 | Err(UnknownStrict) | -
unknown_ordinal_zero | File | 0100000002000001[00*8] | - | Err(UnknownStrict) | -
unknown_top_bit | File | 01000000020080014c01b891c67ff2c0 | - | Err(UnknownTwoWay { txid: 1, ordinal: 13903315490471149900 }) | -
read_on_a_directory | Directory | 02000000020000014c01b891c67ff24005[00*7] | - | Err(UnknownStrict) | -
read_on_a_directory_flexible | Directory | 02000000020080014c01b891c67ff24005[00*7] | - | Err(UnknownTwoWay { txid: 2, ordinal: 4679943453616374092 }) | -
open_on_a_file_flexible | File | [00*4]02008001d6547cffbb4fbc2f01[00*7][ff*8][00*16][ff*12][00*4]2e[00*7] | 2 | Err(UnknownOneWay) | -
open_on_a_file | File | [00*4]02000001d6547cffbb4fbc2f01[00*7][ff*8][00*16][ff*12][00*4]2e[00*7] | 2 | Err(UnknownStrict) | -
unknown_before_txid | File | 0300000002008001d6547cffbb4fbc2f01[00*7][ff*8][00*16][ff*12][00*4]2e[00*7] | 2 | Err(UnknownTwoWay { txid: 3, ordinal: 3439711884268033238 }) | -
query_on_an_echo | Echo | 020000000200000106fcec9deeed5826 | - | Err(UnknownStrict) | -
echo_on_a_node | Node | 020000000200800116a6d9524e27b87502[00*7][ff*8]6869[00*6] | - | Err(UnknownTwoWay { txid: 2, ordinal: 8482573115503257110 }) | -
echo_on_a_directory | Directory | 020000000200000116a6d9524e27b87502[00*7][ff*8]6869[00*6] | - | Err(UnknownStrict) | -
event_from_a_client | Directory | [00*4]020000010c510ad86705b45c | - | Err(UnknownStrict) | -
event_from_a_client_flexible | Directory | [00*4]020080010c510ad86705b45c | - | Err(UnknownOneWay) | -
epitaph_from_a_client | Directory | [00*4]02000001[ff*8]f5ffffff[00*4] | - | Err(UnknownStrict) | -
epitaph_from_a_client_flexible | Directory | 0700000002008001[ff*8]f5ffffff[00*4] | - | Err(UnknownTwoWay { txid: 7, ordinal: 18446744073709551615 }) | -
epitaph_from_a_client_flexible_one_way | Directory | [00*4]02008001[ff*8]f5ffffff[00*4] | - | Err(UnknownOneWay) | -
sync_on_a_watcher | Watcher | 020000000200000149dcb50aca275c2c | - | Err(UnknownStrict) | -
sync_on_a_watcher_flexible | Watcher | 020000000200800149dcb50aca275c2c | - | Err(UnknownTwoWay { txid: 2, ordinal: 3196473584242777161 }) | -
magic_before_unknown | Directory | 070000000200800005[00*7] | - | Err(Malformed(WireFault { at: 7, what: Magic })) | -
version_before_unknown | Directory | 07[00*5]800105[00*7] | - | Err(Malformed(WireFault { at: 4, what: Version })) | -
overflow_before_unknown | Directory | 070000000200c00105[00*7] | - | Err(Malformed(WireFault { at: 6, what: Overflow })) | -
short_before_unknown | Directory | 070000000200000105[00*6] | - | Err(Malformed(WireFault { at: 15, what: Short })) | -
create_symlink_still_unknown | Directory | 0200000002000001893804ec190fce2101[00*7][ff*8]03[00*7][ff*8]73[00*7]662f78[00*5] | - | Err(UnknownStrict) | -
create_symlink_still_unknown_flexible | Directory | 0200000002008001893804ec190fce2101[00*7][ff*8]03[00*7][ff*8]73[00*7]662f78[00*5] | - | Err(UnknownTwoWay { txid: 2, ordinal: 2435901052462315657 }) | -
describe_on_a_node_still_unknown | Node | 0200000002000001f33198e8a52e2c74 | - | Err(UnknownStrict) | -
link_into_still_unknown | File | 0200000002000001743ea0469294f354[ff*4][00*4]01[00*7][ff*8]74[00*7] | 2147483648 | Err(UnknownStrict) | -
link_into_on_a_node_still_unknown | Node | 0200000002008001743ea0469294f354[ff*4][00*4]01[00*7][ff*8]74[00*7] | 2147483648 | Err(UnknownTwoWay { txid: 2, ordinal: 6121399674497678964 }) | -
describe_on_a_directory | Directory | 0200000002000001f33198e8a52e2c74 | - | Err(UnknownStrict) | -
create_symlink_on_a_file | File | 0200000002000001893804ec190fce2101[00*7][ff*8]03[00*7][ff*8]73[00*7]662f78[00*5] | - | Err(UnknownStrict) | -
link_into_on_a_directory | Directory | 0200000002000001743ea0469294f354[ff*4][00*4]01[00*7][ff*8]74[00*7] | 2147483648 | Err(UnknownStrict) | -
read_txid_zero | File | [00*4]020000014c01b891c67ff24005[00*7] | - | Err(Malformed(WireFault { at: 0, what: Txid })) | -
open_txid_three | Directory | 0300000002000001d6547cffbb4fbc2f04[00*7][ff*8]02[00*15][ff*12][00*4]6e6f7065[00*4] | 2 | Err(Malformed(WireFault { at: 0, what: Txid })) | -
clone_txid_one | Directory | 0100000002000001798a16a2aba7d820[ff*4][00*4] | 5 | Err(Malformed(WireFault { at: 0, what: Txid })) | -
txid_before_short | File | [00*4]020000014c01b891c67ff240 | - | Err(Malformed(WireFault { at: 0, what: Txid })) | -
txid_before_handles | Directory | [00*4]0200000149dcb50aca275c2c | 3 | Err(Malformed(WireFault { at: 0, what: Txid })) | -
txid_of_a_flexible_read | File | [00*4]020080014c01b891c67ff24005[00*7] | - | Err(Malformed(WireFault { at: 0, what: Txid })) | -
read_no_body | File | 01000000020000014c01b891c67ff240 | - | Err(Malformed(WireFault { at: 16, what: Short })) | -
read_four_bytes | File | 01000000020000014c01b891c67ff24005000000 | - | Err(Malformed(WireFault { at: 20, what: Short })) | -
read_seven_bytes | File | 01000000020000014c01b891c67ff24005[00*6] | - | Err(Malformed(WireFault { at: 23, what: Short })) | -
clone_without_its_padding | Directory | [00*4]02000001798a16a2aba7d820[ff*4] | 5 | Err(Malformed(WireFault { at: 20, what: Short })) | -
watch_without_its_padding | Directory | 010000000200000179d851a5b930d37201[00*7][ff*4] | 3 | Err(Malformed(WireFault { at: 28, what: Short })) | -
open_one_byte_short | Directory | [00*4]02000001d6547cffbb4fbc2f[00*8][ff*8][00*16][ff*12]000000 | 2 | Err(Malformed(WireFault { at: 63, what: Short })) | -
rename_one_byte_short | Directory | 0100000002000001de28993b72e76070[00*8][ff*12][00*12][ff*7] | 2147483648 | Err(Malformed(WireFault { at: 55, what: Short })) | -
short_before_presence | File | 010000000200000185013bc628059049[00*15] | - | Err(Malformed(WireFault { at: 31, what: Short })) | -
short_before_handles | Directory | [00*4]02000001798a16a2aba7d820[00*4] | 5,6 | Err(Malformed(WireFault { at: 20, what: Short })) | -
sync_one_byte_over | Directory | 010000000200000149dcb50aca275c2c00 | - | Err(Malformed(WireFault { at: 16, what: Trailing })) | -
sync_eight_bytes_over | Directory | 010000000200000149dcb50aca275c2c[00*8] | - | Err(Malformed(WireFault { at: 16, what: Trailing })) | -
read_eight_bytes_over | File | 01000000020000014c01b891c67ff24005[00*15] | - | Err(Malformed(WireFault { at: 24, what: Trailing })) | -
write_bytes_over | File | 010000000200000185013bc62805904901[00*7][ff*8]78[00*15] | - | Err(Malformed(WireFault { at: 40, what: Trailing })) | -
open_bytes_over | Directory | [00*4]02000001d6547cffbb4fbc2f04[00*7][ff*8][00*16][ff*12][00*4]6e6f7065[00*12] | 2 | Err(Malformed(WireFault { at: 72, what: Trailing })) | -
clone_bytes_over | Directory | [00*4]02000001798a16a2aba7d820[ff*4][00*12] | 5 | Err(Malformed(WireFault { at: 24, what: Trailing })) | -
sync_with_a_handle | Directory | 010000000200000149dcb50aca275c2c | 3 | Err(Malformed(WireFault { at: 16, what: Handles })) | -
read_with_a_token | File | 01000000020000014c01b891c67ff24005[00*7] | 2147483648 | Err(Malformed(WireFault { at: 24, what: Handles })) | -
clone_no_handle | Directory | [00*4]02000001798a16a2aba7d820[ff*4][00*4] | - | Err(Malformed(WireFault { at: 16, what: Handles })) | -
clone_token | Directory | [00*4]02000001798a16a2aba7d820[ff*4][00*4] | 2147483648 | Err(Malformed(WireFault { at: 16, what: Handles })) | -
clone_two_handles | Directory | [00*4]02000001798a16a2aba7d820[ff*4][00*4] | 5,6 | Err(Malformed(WireFault { at: 24, what: Handles })) | -
rename_endpoint | Directory | 0100000002000001de28993b72e7607001[00*7][ff*12][00*4]01[00*7][ff*8]61[00*7]62[00*7] | 3 | Err(Malformed(WireFault { at: 32, what: Handles })) | -
rename_no_handle | Directory | 0100000002000001de28993b72e7607001[00*7][ff*12][00*4]01[00*7][ff*8]61[00*7]62[00*7] | - | Err(Malformed(WireFault { at: 32, what: Handles })) | -
rename_two_tokens | Directory | 0100000002000001de28993b72e7607001[00*7][ff*12][00*4]01[00*7][ff*8]61[00*7]62[00*7] | 2147483648,2147483649 | Err(Malformed(WireFault { at: 72, what: Handles })) | -
watch_token | Directory | 010000000200000179d851a5b930d37201[00*7][ff*4][00*4] | 2147483648 | Err(Malformed(WireFault { at: 24, what: Handles })) | -
open_object_token | Directory | [00*4]02000001d6547cffbb4fbc2f01[00*7][ff*8][00*16][ff*12][00*4]61[00*7] | 2147483648 | Err(Malformed(WireFault { at: 56, what: Handles })) | -
open_no_handle | Directory | [00*4]02000001d6547cffbb4fbc2f01[00*7][ff*8][00*16][ff*12][00*4]61[00*7] | - | Err(Malformed(WireFault { at: 56, what: Handles })) | -
open_handle_over | Directory | [00*4]02000001d6547cffbb4fbc2f01[00*7][ff*8][00*16][ff*12][00*4]61[00*7] | 2,3 | Err(Malformed(WireFault { at: 72, what: Handles })) | -
sixty_four_handles_over | Directory | 010000000200000149dcb50aca275c2c | 2,3,4,5,6,7,8,9,10,11,12,13,14,15,16,17,18,19,20,21,22,23,24,25,26,27,28,29,30,31,32,33,34,35,36,37,38,39,40,41,42,43,44,45,46,47,48,49,50,51,52,53,54,55,56,57,58,59,60,61,62,63,64,65 | Err(Malformed(WireFault { at: 16, what: Handles })) | -
clone_absent | Directory | [00*4]02000001798a16a2aba7d820[00*8] | - | Err(Malformed(WireFault { at: 16, what: Presence })) | -
clone_absent_with_a_handle | Directory | [00*4]02000001798a16a2aba7d820[00*8] | 5 | Err(Malformed(WireFault { at: 16, what: Presence })) | -
clone_word_one | Directory | [00*4]02000001798a16a2aba7d82001[00*7] | 5 | Err(Malformed(WireFault { at: 16, what: Presence })) | -
clone_word_almost_present | Directory | [00*4]02000001798a16a2aba7d820feffffff[00*4] | 5 | Err(Malformed(WireFault { at: 16, what: Presence })) | -
clone_word_almost_absent | Directory | [00*4]02000001798a16a2aba7d82000000080[00*4] | 5 | Err(Malformed(WireFault { at: 16, what: Presence })) | -
rename_absent_token | Directory | 0100000002000001de28993b72e7607001[00*7][ff*8][00*8]01[00*7][ff*8]61[00*7]62[00*7] | - | Err(Malformed(WireFault { at: 32, what: Presence })) | -
watch_absent | Directory | 010000000200000179d851a5b930d37201[00*15] | - | Err(Malformed(WireFault { at: 24, what: Presence })) | -
open_absent_object | Directory | [00*4]02000001d6547cffbb4fbc2f01[00*7][ff*8][00*16][ff*8][00*8]61[00*7] | - | Err(Malformed(WireFault { at: 56, what: Presence })) | -
presence_before_handle_kind | Directory | [00*4]02000001798a16a2aba7d82001[00*7] | 2147483648 | Err(Malformed(WireFault { at: 16, what: Presence })) | -
clone_padding_first | Directory | [00*4]02000001798a16a2aba7d820[ff*4]01000000 | 5 | Err(Malformed(WireFault { at: 20, what: Padding })) | -
clone_padding_last | Directory | [00*4]02000001798a16a2aba7d820[ff*4]00000080 | 5 | Err(Malformed(WireFault { at: 23, what: Padding })) | -
clone_padding_two_bytes | Directory | [00*4]02000001798a16a2aba7d820[ff*4]00010100 | 5 | Err(Malformed(WireFault { at: 21, what: Padding })) | -
open_padding_behind_the_object | Directory | [00*4]02000001d6547cffbb4fbc2f04[00*7][ff*8][00*16][ff*12]000100006e6f7065[00*4] | 2 | Err(Malformed(WireFault { at: 61, what: Padding })) | -
seek_padding | File | 010000000200000107522c1668910778[00*7]01[00*8] | - | Err(Malformed(WireFault { at: 23, what: Padding })) | -
rename_padding | Directory | 0100000002000001de28993b72e7607001[00*7][ff*12]0100000001[00*7][ff*8]61[00*7]62[00*7] | 2147483648 | Err(Malformed(WireFault { at: 36, what: Padding })) | -
watch_padding | Directory | 010000000200000179d851a5b930d37201[00*7][ff*4]00000001 | 3 | Err(Malformed(WireFault { at: 31, what: Padding })) | -
path_padding_first | Directory | [00*4]02000001d6547cffbb4fbc2f04[00*7][ff*8][00*16][ff*12][00*4]6e6f706501000000 | 2 | Err(Malformed(WireFault { at: 68, what: Padding })) | -
path_padding_last | Directory | [00*4]02000001d6547cffbb4fbc2f04[00*7][ff*8][00*16][ff*12][00*4]6e6f706500000001 | 2 | Err(Malformed(WireFault { at: 71, what: Padding })) | -
write_padding | File | 010000000200000185013bc62805904907[00*7][ff*8]6162636465666701 | - | Err(Malformed(WireFault { at: 39, what: Padding })) | -
rename_first_name_padding | Directory | 0100000002000001de28993b72e7607001[00*7][ff*12][00*4]01[00*7][ff*8]6101[00*6]62[00*7] | 2147483648 | Err(Malformed(WireFault { at: 57, what: Padding })) | -
rename_second_name_padding | Directory | 0100000002000001de28993b72e7607001[00*7][ff*12][00*4]01[00*7][ff*8]61[00*7]62[00*5]0100 | 2147483648 | Err(Malformed(WireFault { at: 70, what: Padding })) | -
zero_bytes_in_a_name_are_no_padding | Directory | 0100000002000001ed7b8da726030a7503[00*7][ff*8][00*8][ff*8]610062[00*5] | - | Ok((1, Unlink { name: x'610062', flags: 0 })) | same
path_presence_zero | Directory | [00*4]02000001d6547cffbb4fbc2f01[00*31][ff*12][00*4]61[00*7] | 2 | Err(Malformed(WireFault { at: 16, what: Presence })) | -
path_presence_and_count_zero | Directory | [00*4]02000001d6547cffbb4fbc2f[00*32][ff*12][00*4] | 2 | Err(Malformed(WireFault { at: 16, what: Presence })) | -
path_presence_not_all_ones | Directory | [00*4]02000001d6547cffbb4fbc2f01[00*7][ff*7]7f[00*16][ff*12][00*4]61[00*7] | 2 | Err(Malformed(WireFault { at: 16, what: Presence })) | -
path_presence_one | Directory | [00*4]02000001d6547cffbb4fbc2f01[00*7]01[00*23][ff*12][00*4]61[00*7] | 2 | Err(Malformed(WireFault { at: 16, what: Presence })) | -
options_presence_zero | Directory | [00*4]02000001d6547cffbb4fbc2f01[00*7][ff*8][00*24][ff*4][00*4]61[00*7] | 2 | Err(Malformed(WireFault { at: 40, what: Presence })) | -
write_presence_zero | File | 010000000200000185013bc62805904901[00*15]78[00*7] | - | Err(Malformed(WireFault { at: 16, what: Presence })) | -
second_name_presence_zero | Directory | 0100000002000001de28993b72e7607001[00*7][ff*12][00*4]01[00*15]61[00*7]62[00*7] | 2147483648 | Err(Malformed(WireFault { at: 40, what: Presence })) | -
unlink_options_presence_zero | Directory | 0100000002000001ed7b8da726030a7501[00*7][ff*8][00*16]66[00*7] | - | Err(Malformed(WireFault { at: 32, what: Presence })) | -
presence_before_count | File | 010000000200000185013bc628059049[ff*8][00*8] | - | Err(Malformed(WireFault { at: 16, what: Presence })) | -
path_count_nine_of_eight | Directory | [00*4]02000001d6547cffbb4fbc2f09[00*7][ff*8][00*16][ff*12][00*4][61*8] | 2 | Err(Malformed(WireFault { at: 16, what: Count })) | -
write_count_largest | File | 010000000200000185013bc628059049[ff*16] | - | Err(Malformed(WireFault { at: 16, what: Count })) | -
write_count_whose_padding_wraps | File | 010000000200000185013bc628059049f9[ff*15] | - | Err(Malformed(WireFault { at: 16, what: Count })) | -
write_count_top_bit | File | 010000000200000185013bc628059049[00*7]80[ff*8] | - | Err(Malformed(WireFault { at: 16, what: Count })) | -
write_count_two_to_32 | File | 010000000200000185013bc628059049[00*4]01000000[ff*8] | - | Err(Malformed(WireFault { at: 16, what: Count })) | -
write_without_its_padding | File | 010000000200000185013bc62805904903[00*7][ff*8]616263 | - | Err(Malformed(WireFault { at: 16, what: Count })) | -
options_count_without_bytes | Directory | [00*4]02000001d6547cffbb4fbc2f01[00*7][ff*8][00*8]01[00*7][ff*12][00*4]61[00*7] | 2 | Err(Malformed(WireFault { at: 40, what: Count })) | -
options_count_that_wraps | Directory | [00*4]02000001d6547cffbb4fbc2f01[00*7][ff*8][00*15]20[ff*12][00*4]61[00*7] | 2 | Err(Malformed(WireFault { at: 40, what: Count })) | -
options_count_largest | Directory | [00*4]02000001d6547cffbb4fbc2f01[00*7][ff*8][00*8][ff*20][00*4]61[00*7] | 2 | Err(Malformed(WireFault { at: 40, what: Count })) | -
count_before_utf8 | Echo | 010000000200000116a6d9524e27b87509[00*7][ff*16] | - | Err(Malformed(WireFault { at: 16, what: Count })) | -
second_name_count | Directory | 0100000002000001de28993b72e7607001[00*7][ff*12][00*4]01[00*7][ff*8]61[00*7] | 2147483648 | Err(Malformed(WireFault { at: 40, what: Count })) | -
echo_a_lone_byte | Echo | 010000000200000116a6d9524e27b87501[00*7][ff*9][00*7] | - | Err(Malformed(WireFault { at: 16, what: Utf8 })) | -
echo_an_overlong_zero | Echo | 010000000200000116a6d9524e27b87502[00*7][ff*8]c080[00*6] | - | Err(Malformed(WireFault { at: 16, what: Utf8 })) | -
echo_a_surrogate | Echo | 010000000200000116a6d9524e27b87503[00*7][ff*8]eda080[00*5] | - | Err(Malformed(WireFault { at: 16, what: Utf8 })) | -
echo_a_cut_character | Echo | 010000000200000116a6d9524e27b87502[00*7][ff*8]e282[00*6] | - | Err(Malformed(WireFault { at: 16, what: Utf8 })) | -
echo_past_the_largest | Echo | 010000000200000116a6d9524e27b87504[00*7][ff*8]f4908080[00*4] | - | Err(Malformed(WireFault { at: 16, what: Utf8 })) | -
echo_a_lone_continuation | Echo | 010000000200000116a6d9524e27b87501[00*7][ff*8]80[00*7] | - | Err(Malformed(WireFault { at: 16, what: Utf8 })) | -
echo_good_then_bad | Echo | 010000000200000116a6d9524e27b87503[00*7][ff*8]6161c3[00*5] | - | Err(Malformed(WireFault { at: 16, what: Utf8 })) | -
path_not_utf8 | Directory | [00*4]02000001d6547cffbb4fbc2f01[00*7][ff*8][00*16][ff*12][00*4]ff[00*7] | 2 | Err(Malformed(WireFault { at: 16, what: Utf8 })) | -
unlink_name_not_utf8 | Directory | 0100000002000001ed7b8da726030a7501[00*7][ff*8][00*8][ff*8]c3[00*7] | - | Err(Malformed(WireFault { at: 16, what: Utf8 })) | -
second_name_not_utf8 | Directory | 01000000020000014681a69845b4aa0301[00*7][ff*12][00*4]01[00*7][ff*8]61[00*7]ff[00*7] | 2147483648 | Err(Malformed(WireFault { at: 40, what: Utf8 })) | -
utf8_before_padding | Echo | 010000000200000116a6d9524e27b87501[00*7][ff*9]01[00*6] | - | Err(Malformed(WireFault { at: 16, what: Utf8 })) | -
member_inlined | Directory | [00*4]02000001d6547cffbb4fbc2f01[00*7][ff*8][00*8]01[00*7][ff*12][00*4]2e[00*7]07[00*5]0100 | 2 | Err(Malformed(WireFault { at: 72, what: Envelope })) | -
member_inlined_counts_handles | Directory | [00*4]02000001d6547cffbb4fbc2f01[00*7][ff*8][00*8]01[00*7][ff*12][00*4]2e[00*7]0700000005000100 | 2 | Err(Malformed(WireFault { at: 72, what: Envelope })) | -
flag_two | Directory | [00*4]02000001d6547cffbb4fbc2f01[00*7][ff*8][00*8]01[00*7][ff*12][00*4]2e[00*7]08[00*5]020007[00*7] | 2 | Err(Malformed(WireFault { at: 72, what: Envelope })) | -
flag_three | Directory | [00*4]02000001d6547cffbb4fbc2f01[00*7][ff*8][00*8]01[00*7][ff*12][00*4]2e[00*7]08[00*5]030007[00*7] | 2 | Err(Malformed(WireFault { at: 72, what: Envelope })) | -
flag_high_byte | Directory | [00*4]02000001d6547cffbb4fbc2f01[00*7][ff*8][00*8]01[00*7][ff*12][00*4]2e[00*7]08[00*6]0107[00*7] | 2 | Err(Malformed(WireFault { at: 72, what: Envelope })) | -
byte_count_four | Directory | [00*4]02000001d6547cffbb4fbc2f01[00*7][ff*8][00*8]01[00*7][ff*12][00*4]2e[00*7]04[00*7]07[00*7] | 2 | Err(Malformed(WireFault { at: 72, what: Envelope })) | -
byte_count_twelve | Directory | [00*4]02000001d6547cffbb4fbc2f01[00*7][ff*8][00*8]01[00*7][ff*12][00*4]2e[00*7]0c[00*7]07[00*7]07[00*7] | 2 | Err(Malformed(WireFault { at: 72, what: Envelope })) | -
byte_count_zero_with_a_handle | Directory | [00*4]02000001d6547cffbb4fbc2f01[00*7][ff*8][00*8]01[00*7][ff*12][00*4]2e[00*11]0100000007[00*7] | 2 | Err(Malformed(WireFault { at: 72, what: Envelope })) | -
value_missing | Directory | [00*4]02000001d6547cffbb4fbc2f01[00*7][ff*8][00*8]01[00*7][ff*12][00*4]2e[00*7]08[00*7] | 2 | Err(Malformed(WireFault { at: 72, what: Envelope })) | -
byte_count_past_the_end | Directory | [00*4]02000001d6547cffbb4fbc2f01[00*7][ff*8][00*8]01[00*7][ff*12][00*4]2e[00*7]f8ffffff[00*4]07[00*7] | 2 | Err(Malformed(WireFault { at: 72, what: Envelope })) | -
byte_count_over_the_value | Directory | [00*4]02000001d6547cffbb4fbc2f01[00*7][ff*8][00*8]01[00*7][ff*12][00*4]2e[00*7]10[00*7]07[00*7]07[00*7] | 2 | Err(Malformed(WireFault { at: 72, what: Envelope })) | -
handle_count_over_the_value | Directory | [00*4]02000001d6547cffbb4fbc2f01[00*7][ff*8][00*8]01[00*7][ff*12][00*4]2e[00*7]080000000100000007[00*7] | 2 | Err(Malformed(WireFault { at: 72, what: Envelope })) | -
handle_count_over_what_is_left | Directory | [00*4]02000001d6547cffbb4fbc2f01[00*7][ff*8][00*8]01[00*7][ff*12][00*4]2e[00*7]080000000200000007[00*7] | 2 | Err(Malformed(WireFault { at: 72, what: Handles })) | -
handle_count_largest | Directory | [00*4]02000001d6547cffbb4fbc2f01[00*7][ff*8][00*8]01[00*7][ff*12][00*4]2e[00*7]08000000ffff000007[00*7] | 2 | Err(Malformed(WireFault { at: 72, what: Handles })) | -
value_missing_before_handles | Directory | [00*4]02000001d6547cffbb4fbc2f01[00*7][ff*8][00*8]01[00*7][ff*12][00*4]2e[00*7]0800000002000000 | 2 | Err(Malformed(WireFault { at: 72, what: Envelope })) | -
form_before_handles | Directory | [00*4]02000001d6547cffbb4fbc2f01[00*7][ff*8][00*8]01[00*7][ff*12][00*4]2e[00*7]040000000200000007[00*7] | 2 | Err(Malformed(WireFault { at: 72, what: Envelope })) | -
two_absent_envelopes | Directory | [00*4]02000001d6547cffbb4fbc2f01[00*7][ff*8][00*8]02[00*7][ff*12][00*4]2e[00*23] | 2 | Ok((0, OpenPath { path: '.', flags: 0, attributes: None, object: 2 })) | other
trailing_absent_envelope | Directory | [00*4]02000001d6547cffbb4fbc2f01[00*7][ff*8][00*8]02[00*7][ff*12][00*4]2e[00*7]08[00*15]07[00*7] | 2 | Ok((0, OpenPath { path: '.', flags: 0, attributes: Some(7), object: 2 })) | other
twelve_absent_envelopes | Directory | [00*4]02000001d6547cffbb4fbc2f01[00*7][ff*8][00*8]0c[00*7][ff*12][00*4]2e[00*103] | 2 | Ok((0, OpenPath { path: '.', flags: 0, attributes: None, object: 2 })) | other
skipped_member_inlined_with_a_handle | Directory | [00*4]02000001d6547cffbb4fbc2f01[00*7][ff*8][00*8]05[00*7][ff*12][00*4]2e[00*43]01000100 | 7,2 | Ok((0, OpenPath { path: '.', flags: 0, attributes: None, object: 2 })) | other
skipped_member_inlined_bytes_unread | Directory | [00*4]02000001d6547cffbb4fbc2f01[00*7][ff*8][00*8]05[00*7][ff*12][00*4]2e[00*39]deadbeef01000100 | 7,2 | Ok((0, OpenPath { path: '.', flags: 0, attributes: None, object: 2 })) | other
skipped_member_out_of_line | Directory | [00*4]02000001d6547cffbb4fbc2f01[00*7][ff*8][00*8]02[00*7][ff*12][00*4]2e[00*15]08[00*7][ff*8] | 2 | Ok((0, OpenPath { path: '.', flags: 0, attributes: None, object: 2 })) | other
known_then_skipped_with_handles | Directory | [00*4]02000001d6547cffbb4fbc2f01[00*7][ff*8][00*8]02[00*7][ff*12][00*4]2e[00*7]08[00*7]100000000200000009[00*7][ff*16] | 7,2147483648,2 | Ok((0, OpenPath { path: '.', flags: 0, attributes: Some(9), object: 2 })) | other
skipped_member_with_63_handles | Directory | [00*4]02000001d6547cffbb4fbc2f01[00*7][ff*8][00*8]02[00*7][ff*12][00*4]2e[00*15]080000003f[00*11] | 100,101,102,103,104,105,106,107,108,109,110,111,112,113,114,115,116,117,118,119,120,121,122,123,124,125,126,127,128,129,130,131,132,133,134,135,136,137,138,139,140,141,142,143,144,145,146,147,148,149,150,151,152,153,154,155,156,157,158,159,160,161,162,2 | Ok((0, OpenPath { path: '.', flags: 0, attributes: None, object: 2 })) | other
two_skipped_members | Directory | [00*4]02000001d6547cffbb4fbc2f01[00*7][ff*8][00*8]03[00*7][ff*12][00*4]2e[00*15]0800000001[00*7]010001[00*9] | 7,8,2 | Ok((0, OpenPath { path: '.', flags: 0, attributes: None, object: 2 })) | other
skipped_member_takes_the_object | Directory | [00*4]02000001d6547cffbb4fbc2f01[00*7][ff*8][00*8]02[00*7][ff*12][00*4]2e[00*19]01000100 | 2 | Err(Malformed(WireFault { at: 56, what: Handles })) | -
skipped_member_counts_too_many | Directory | [00*4]02000001d6547cffbb4fbc2f01[00*7][ff*8][00*8]02[00*7][ff*12][00*4]2e[00*19]02000100 | 2 | Err(Malformed(WireFault { at: 80, what: Handles })) | -
skipped_member_leaves_the_wrong_kind | Directory | [00*4]02000001d6547cffbb4fbc2f01[00*7][ff*8][00*8]02[00*7][ff*12][00*4]2e[00*19]01000100 | 2,2147483648 | Err(Malformed(WireFault { at: 56, what: Handles })) | -
skipped_member_byte_count_four | Directory | [00*4]02000001d6547cffbb4fbc2f01[00*7][ff*8][00*8]02[00*7][ff*12][00*4]2e[00*15]04[00*15] | 2 | Err(Malformed(WireFault { at: 80, what: Envelope })) | -
skipped_member_flag_two | Directory | [00*4]02000001d6547cffbb4fbc2f01[00*7][ff*8][00*8]02[00*7][ff*12][00*4]2e[00*21]0200 | 2 | Err(Malformed(WireFault { at: 80, what: Envelope })) | -
skipped_member_past_the_end | Directory | [00*4]02000001d6547cffbb4fbc2f01[00*7][ff*8][00*8]02[00*7][ff*12][00*4]2e[00*15]10[00*15] | 2 | Err(Malformed(WireFault { at: 80, what: Envelope })) | -
skipped_member_past_the_end_before_handles | Directory | [00*4]02000001d6547cffbb4fbc2f01[00*7][ff*8][00*8]02[00*7][ff*12][00*4]2e[00*15]1000000009[00*11] | 2 | Err(Malformed(WireFault { at: 80, what: Envelope })) | -
first_envelope_first | Directory | [00*4]02000001d6547cffbb4fbc2f01[00*7][ff*8][00*8]02[00*7][ff*12][00*4]2e[00*7]08[00*5]020004[00*7] | 2 | Err(Malformed(WireFault { at: 72, what: Envelope })) | -
second_envelope_behind_a_good_one | Directory | [00*4]02000001d6547cffbb4fbc2f01[00*7][ff*8][00*8]02[00*7][ff*12][00*4]2e[00*7]08[00*7]04[00*7]07[00*7] | 2 | Err(Malformed(WireFault { at: 80, what: Envelope })) | -
bytes_behind_a_member | Directory | [00*4]02000001d6547cffbb4fbc2f01[00*7][ff*8][00*8]01[00*7][ff*12][00*4]2e[00*7]08[00*7]07[00*7]08[00*7] | 2 | Err(Malformed(WireFault { at: 88, what: Trailing })) | -
options_before_the_object | Directory | [00*4]02000001d6547cffbb4fbc2f01[00*7][ff*8][00*8]01[00*7][ff*12][00*4]2e[00*7]08[00*5]0100 | - | Err(Malformed(WireFault { at: 72, what: Envelope })) | -
unlink_flags_zero_with_a_member | Directory | 0100000002000001ed7b8da726030a7501[00*7][ff*8]01[00*7][ff*8]66[00*7]08[00*15] | - | Ok((1, Unlink { name: 'f', flags: 0 })) | other
unlink_flags_member_absent | Directory | 0100000002000001ed7b8da726030a7501[00*7][ff*8]01[00*7][ff*8]66[00*15] | - | Ok((1, Unlink { name: 'f', flags: 0 })) | other
unlink_flags_inlined | Directory | 0100000002000001ed7b8da726030a7501[00*7][ff*8]01[00*7][ff*8]66[00*7]01[00*5]0100 | - | Err(Malformed(WireFault { at: 56, what: Envelope })) | -
unlink_skipped_member | Directory | 0100000002000001ed7b8da726030a7501[00*7][ff*8]02[00*7][ff*8]66[00*7]08[00*7]08[00*7]01[00*7][ff*8] | - | Ok((1, Unlink { name: 'f', flags: 1 })) | other
unlink_skipped_member_with_a_handle | Directory | 0100000002000001ed7b8da726030a7501[00*7][ff*8]02[00*7][ff*8]66[00*19]01000100 | 9 | Ok((1, Unlink { name: 'f', flags: 0 })) | other
path_padding_before_options | Directory | [00*4]02000001d6547cffbb4fbc2f01[00*7][ff*8][00*24][ff*4][00*4]6101[00*6] | 2 | Err(Malformed(WireFault { at: 65, what: Padding })) | -
path_before_object | Directory | [00*4]02000001d6547cffbb4fbc2f01[00*7][ff*8][00*16][ff*8]01[00*7]ff[00*7] | 2 | Err(Malformed(WireFault { at: 16, what: Utf8 })) | -
options_before_padding_of_the_object | Directory | [00*4]02000001d6547cffbb4fbc2f01[00*7][ff*8][00*24][ff*4]0100000061[00*7] | 2 | Err(Malformed(WireFault { at: 40, what: Presence })) | -
handle_before_its_padding | Directory | [00*4]02000001798a16a2aba7d820[ff*4]01000000 | - | Err(Malformed(WireFault { at: 16, what: Handles })) | -
padding_before_trailing | Directory | [00*4]02000001798a16a2aba7d820[ff*4]01[00*11] | 5 | Err(Malformed(WireFault { at: 20, what: Padding })) | -
padding_before_handles | Directory | [00*4]02000001798a16a2aba7d820[ff*4]01000000 | 5,6 | Err(Malformed(WireFault { at: 20, what: Padding })) | -
trailing_before_handles | Directory | 010000000200000149dcb50aca275c2c00 | 5 | Err(Malformed(WireFault { at: 16, what: Trailing })) | -
trailing_not_zero | Directory | 010000000200000149dcb50aca275c2cff | - | Err(Malformed(WireFault { at: 16, what: Trailing })) | -
string_padding_before_trailing | Echo | 010000000200000116a6d9524e27b87501[00*7][ff*8]6101[00*14] | - | Err(Malformed(WireFault { at: 33, what: Padding })) | -
token_before_padding_before_second_name | Directory | 0100000002000001de28993b72e7607001[00*7][ff*12]0100000001[00*15]61[00*7]62[00*7] | 3 | Err(Malformed(WireFault { at: 32, what: Handles })) | -
padding_before_second_name | Directory | 0100000002000001de28993b72e7607001[00*7][ff*12]0100000001[00*15]61[00*7]62[00*7] | 2147483648 | Err(Malformed(WireFault { at: 36, what: Padding })) | -
first_name_padding_before_token | Directory | 0100000002000001de28993b72e7607001[00*7][ff*8][00*8]01[00*7][ff*8]6101[00*6]62[00*7] | - | Err(Malformed(WireFault { at: 57, what: Padding })) | -
";
