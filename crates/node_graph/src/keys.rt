ghost use Rattle.std.specs.Prelude.{◌≡◌, ℕ, ◌≤◌, ◌<◌, [], length, take, refl, slice_index};
ghost use Rattle.std.specs.Int.{w64, from_be_bytes};
ghost use Rattle.std.specs.Ordering.{nat_cmp};
ghost use Rattle.std.specs.Cmp.Lexicographic.{slice_cmp};
ghost use Rattle.std.specs.Cmp.{partial_order_from_total, partial_equiv_from_equiv, eq_by_cmp_equiv};
ghost use Rattle.std.specs.Ordering.{eq_by_cmp, as_partial_cmp};
ghost use Rattle.node_graph.specs.Tree.{EdgeKey, edge_cmp, name_in};
ghost use Rattle.node_graph.specs.Keys.{IsHead, edges_total};

use fidl_names::MAX_NAME;
use std::cmp::Ordering;
use std::marker::Model;

// How many bytes of a name its head has.
const HEAD: usize = 8;

/// Where an edge starts: the number of a directory, and a name in it, or what a name is compared with.
#[derive(Drop)]
pub struct EdgeName {
    directory: u64,
    // The first bytes of the name, which tell most names apart in one step.
    head: u64,
    bytes: [u8; MAX_NAME],
    length: usize,
}

impl Model for EdgeName {
    ghost use Rattle.std.specs.Prelude.{take, ◌≤◌};
    ghost use Rattle.node_graph.specs.Keys.{IsHead};
    ghost use Rattle.fidl_names.specs.declared.limits.TheConstants.{MAX_NAME};
    ghost use Rattle.node_graph.specs.Tree.{EdgeKey};
    ghost use Rattle.node_graph.specs.Codes.{key_code};

    ghost Value = { EdgeKey };

    ghost coded = { key_code };

    ghost view = { λ key. record { directory = key.directory; name = take key.length key.bytes } };

    ghost invariant = { λ key. (key.length ≤ MAX_NAME) × IsHead key.head (take key.length key.bytes) };
}

impl EdgeName {
    pub fn new(directory: u64, name: &[u8]) -> EdgeName
        requires { length name.now ≤ MAX_NAME }
        ensures { result ≡ name_in directory name.now }
    {
        let mut key = EdgeName::in_directory(directory);
        key.set_name(name);
        key
    }

    // The empty name in a directory.
    pub fn in_directory(directory: u64) -> EdgeName
        ensures { result ≡ name_in directory [] }
    {
        EdgeName {
            directory,
            head: 0,
            bytes: [0; MAX_NAME],
            length: 0,
        }
    }

    // Changes the name in its place, so that a key that is only looked for is never copied.
    pub fn set_name(&mut self, name: &[u8])
        requires { length name.now ≤ MAX_NAME }
        ensures { self.new ≡ name_in self.old.directory name.now }
    {
        self.head = write_padded(&mut self.bytes, name);
        self.length = name.len();
    }

    pub fn name(&self) -> &[u8]
        ensures value { result.now ≡ self.now.name }
        ensures few { length result.now ≤ MAX_NAME }
    {
        &self.bytes[..self.length]
    }

    fn cmp_names(&self, other: &EdgeName) -> Ordering
        ensures { result ≡ slice_cmp nat_cmp self.now.name other.now.name }
    {
        if self.head < other.head {
            return Ordering::Less;
        }
        if self.head > other.head {
            return Ordering::Greater;
        }
        // Names that are no longer than the head which they share can differ in their length alone.
        if self.length <= HEAD && other.length <= HEAD {
            return self.length.cmp(&other.length);
        }
        self.name().cmp(other.name())
    }
}

// Writes a name with zeros behind it, and answers its head.
fn write_padded(bytes: &mut [u8; MAX_NAME], name: &[u8]) -> u64
    requires { length name.now ≤ MAX_NAME }
    ensures name { take (length name.now) bytes.new ≡ name.now }
    ensures head { IsHead result name.now }
{
    *bytes = [0; MAX_NAME];
    bytes[..name.len()].copy_from_slice(name);
    head_of(bytes)
}

// The first eight bytes as one number, which is in the order of the bytes.
fn head_of(bytes: &[u8; MAX_NAME]) -> u64
    ensures number { result ≡ from_be_bytes w64 bytes.now }
    ensures bytes { (place : ℕ) → place < 8 → slice_index bytes.now place < 256 }
{
    u64::from_be_bytes([
        bytes[0], bytes[1], bytes[2], bytes[3], bytes[4], bytes[5], bytes[6], bytes[7],
    ])
}

impl PartialEq for EdgeName {
    ghost eq = { eq_by_cmp edge_cmp };

    ghost laws = { partial_equiv_from_equiv (eq_by_cmp_equiv edges_total) };

    fn eq(&self, other: &EdgeName) -> bool {
        self.cmp(other).is_eq()
    }
}

impl Eq for EdgeName {
    ghost laws = { eq_by_cmp_equiv edges_total };
}

impl PartialOrd for EdgeName {
    ghost partial_cmp = { as_partial_cmp edge_cmp };

    ghost laws = { partial_order_from_total edges_total };

    fn partial_cmp(&self, other: &EdgeName) -> Option<Ordering> {
        Some(self.cmp(other))
    }
}

impl Ord for EdgeName {
    ghost cmp = { edge_cmp };

    ghost total = { edges_total };

    ghost matches_partial_cmp = { λ x y. refl };

    ghost matches_eq = { λ x y. refl };

    fn cmp(&self, other: &EdgeName) -> Ordering {
        if self.directory < other.directory {
            return Ordering::Less;
        }
        if self.directory > other.directory {
            return Ordering::Greater;
        }
        self.cmp_names(other)
    }
}
