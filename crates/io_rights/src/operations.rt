ghost use Rattle.std.specs.Prelude.{◌≡◌};
ghost use Rattle.io_rights.specs.Operations.{bit_of};
ghost use Rattle.io_rights.specs.Letters.{letter_of};

/// What a connection may be allowed to do, after the `Operations` of `fuchsia.io`. The order and the
/// bits are this project's own.
#[derive(Clone, Copy)]
pub enum Operation {
    Connect,
    ReadBytes,
    WriteBytes,
    Execute,
    GetAttributes,
    UpdateAttributes,
    Enumerate,
    Traverse,
    ModifyDirectory,
}

impl Operation {
    /// All nine, in their order.
    pub const ALL: [Operation; 9] = [
        Operation::Connect,
        Operation::ReadBytes,
        Operation::WriteBytes,
        Operation::Execute,
        Operation::GetAttributes,
        Operation::UpdateAttributes,
        Operation::Enumerate,
        Operation::Traverse,
        Operation::ModifyDirectory,
    ];

    /// The place of its bit, 0 to 8.
    pub fn bit(self) -> u32
        ensures { result ≡ bit_of self }
    {
        match self {
            Operation::Connect => 0,
            Operation::ReadBytes => 1,
            Operation::WriteBytes => 2,
            Operation::Execute => 3,
            Operation::GetAttributes => 4,
            Operation::UpdateAttributes => 5,
            Operation::Enumerate => 6,
            Operation::Traverse => 7,
            Operation::ModifyDirectory => 8,
        }
    }

    /// Its letter, in ASCII.
    pub fn letter(self) -> u8
        ensures { result ≡ letter_of self }
    {
        match self {
            Operation::Connect => b'c',
            Operation::ReadBytes => b'r',
            Operation::WriteBytes => b'w',
            Operation::Execute => b'x',
            Operation::GetAttributes => b'g',
            Operation::UpdateAttributes => b'u',
            Operation::Enumerate => b'e',
            Operation::Traverse => b't',
            Operation::ModifyDirectory => b'm',
        }
    }
}
