use crate::{Handle, Status, is_client};

// The numbers of the statuses, as Zircon has them or as this profile adds them.
const NUMBERS: [(Status, i32); 21] = [
    (Status::Ok, 0),
    (Status::Internal, -1),
    (Status::NotSupported, -2),
    (Status::NoResources, -3),
    (Status::NoMemory, -4),
    (Status::InvalidArgs, -10),
    (Status::BadHandle, -11),
    (Status::WrongType, -12),
    (Status::OutOfRange, -14),
    (Status::BufferTooSmall, -15),
    (Status::BadState, -20),
    (Status::ShouldWait, -22),
    (Status::PeerClosed, -24),
    (Status::NotFound, -25),
    (Status::AlreadyExists, -26),
    (Status::AccessDenied, -30),
    (Status::NotDir, -51),
    (Status::NotFile, -52),
    (Status::FileBig, -53),
    (Status::NoSpace, -54),
    (Status::NotEmpty, -55),
];

#[test]
fn statuses_have_their_numbers(rt: HostRuntime) {
    for (status, number) in NUMBERS {
        assert_eq!(rt; status.number(), number);
        assert_eq!(rt; Status::from_number(number), Some(status));
    }
    for number in [1, -5, -9, -13, -21, -56, i32::MIN, i32::MAX] {
        assert_eq!(rt; Status::from_number(number), None, "at {number}");
    }
}

#[test]
fn handles_have_numbers(rt: HostRuntime) {
    assert_eq!(rt; Handle::Endpoint(7).number(), 7);
    assert_eq!(rt; Handle::Token(2_147_483_648).number(), 2_147_483_648);
    for (number, want) in [
        (0, false),
        (1, true),
        (1_073_741_823, true),
        (1_073_741_824, false),
        (4_294_967_295, false),
    ] {
        assert_eq!(rt; is_client(number), want, "at {number}");
    }
}
