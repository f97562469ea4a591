// All 2^20 CA patterns with clock enable high, in a trace of one part with CS_n low, and in one of two as each part's; others with all that can stand above
// the CA bits; and commands that the writer refuses, for what they carry or for the part. For each rising edge a line: its kind in the table, and a digest of
// what its patterns are read as and of the buffer after writing; a write that fails is passed over. The file stdout is worked out by expected.py from the lists in the documents.
#![tactic(auto)]

ghost use Rattle.std.specs.Prelude.{◌≤◌, ◌<◌};

use pins::{Command, Level, Read, Undecoded, Unwritten, Whose};

// The digest's numbers, here and below, are those of expected.py.
fn mix(h: u64, x: u64) -> u64 {
    (h % 4294967296 * 1000003 + x % 4294967296) % 4294967296
}

fn packed(kind: u64, small: u8, large: u16) -> u64
    requires { kind ≤ 15 }
{
    kind * 16777216 + u64::from(small) * 65536 + u64::from(large)
}

// Reads and writes with AP have numbers of their own.
fn access(kind: u64, bank: u8, column: u16, ap: bool) -> u64
    requires { kind ≤ 7 }
{
    packed(if ap { kind + 5 } else { kind }, bank, column)
}

fn numbers(command: Command) -> u64 {
    match command {
        Command::Nop => packed(0, 0, 0),
        Command::Mrw { ma, op } => packed(1, ma, u16::from(op)),
        Command::Mrr { ma } => packed(2, ma, 0),
        Command::Refpb => packed(3, 0, 0),
        Command::Refab => packed(4, 0, 0),
        Command::Act { bank, row } => packed(5, bank, row),
        Command::Rd { bank, column, ap } => access(6, bank, column, ap),
        Command::Wr { bank, column, ap } => access(7, bank, column, ap),
        Command::Pre { bank } => packed(8, bank, 0),
        Command::Prea => packed(9, 0, 0),
    }
}

fn answer(wrote: Result<(), Unwritten>) -> u64 {
    match wrote {
        Ok(()) => 0,
        Err(Unwritten::Unfit) => 14,
        Err(Unwritten::NoRoom) => 15,
    }
}

// Writes at the start of a buffer of twelve bytes, of which the first few are lent.
fn put(h: u64, paired: bool, told: Option<u8>, stamp: u32, room: usize, command: Command) -> u64
    requires { room ≤ 12 }
{
    let mut buffer = [165u8; 12];
    let wrote = pins::write_entry(paired, told, stamp, command, &mut buffer[..room]);
    let mut digest = mix(h, answer(wrote));
    for byte in buffer {
        digest = mix(digest, u64::from(byte));
    }
    digest
}

fn again(
    h: u64,
    paired: bool,
    told: Option<u8>,
    pins: u32,
    decoded: Result<Command, Undecoded>,
) -> u64 {
    match decoded {
        Ok(command) => put(
            mix(h, numbers(command)),
            paired,
            told,
            pins % 1048576 * 4093,
            12,
            command,
        ),
        Err(Undecoded::WrongBits) => mix(h, 6),
        Err(Undecoded::Reserved) => mix(h, 7),
    }
}

fn decoded(h: u64, pins: u32) -> u64 {
    again(h, false, None, pins, pins::decode(pins))
}

fn place(whose: Whose) -> u64 {
    match whose {
        Whose::Sole => 0,
        Whose::First => 1,
        Whose::Second => 2,
        Whose::Neither => 3,
        Whose::Both => 4,
    }
}

fn part(whose: Whose) -> Option<u8> {
    if pins::is_first(whose) {
        Some(0)
    } else if pins::is_second(whose) {
        Some(1)
    } else {
        None
    }
}

// In a trace of two parts, where no move of clock-enable comes.
fn shared(h: u64, pins: u32) -> u64 {
    let whose = pins::whose_pins(true, pins);
    let of = mix(h, place(whose));
    match pins::read_pins(false, true, Level::Awake, pins) {
        Read::Plain(decoded) => again(of, true, part(whose), pins, decoded),
        Read::Clash => mix(of, 24),
        _ => of,
    }
}

// Every falling edge behind this rising one.
fn patterns(rising: u32) -> u64
    requires { rising < 1024 }
{
    let mut h = 0;
    for falling in 0..1024u32 {
        let ca = falling * 1024 + rising;
        h = decoded(h, 0x200000 + ca);
        h = shared(shared(h, 0x600000 + ca), 0x300000 + ca);
    }
    h
}

// The five bits above CA.
fn others(from: u64, rising: u32) -> u64
    requires { rising < 1024 }
{
    let ca = (1023 - rising) * 1024 + rising;
    let mut h = from;
    for high in 0..32u32 {
        h = shared(decoded(h, high * 1048576 + ca), high * 1048576 + ca);
    }
    h
}

// Commands in and out of range, into 0 to 12 bytes of room.
fn made(from: u64, paired: bool, told: Option<u8>, n: u32) -> u64
    requires { n < 1024 }
{
    let bank = (n % 16) as u8;
    let column = (n * 7) as u16;
    let byte = (n % 256) as u8;
    let ap = n % 3 == 0;
    let row = (n * 61) as u16;
    let op = (n / 4) as u8;
    let commands = [
        Command::Act { bank, row },
        Command::Rd { bank, column, ap },
        Command::Wr { bank, column, ap },
        Command::Pre { bank: byte },
        Command::Mrr { ma: byte },
        Command::Mrw { ma: byte, op },
        Command::Nop,
    ];
    let mut h = from;
    for command in commands {
        h = put(h, paired, told, n, (n % 13) as usize, command);
    }
    h
}

// With no part, and with a part from 0 to 2, in a trace of one part and in one of two.
fn all_made(from: u64, n: u32) -> u64
    requires { n < 1024 }
{
    let told = Some((n % 3) as u8);
    let one = made(made(from, false, None, n), false, told, n);
    made(made(one, true, None, n), true, told, n)
}

fn main(rt: HostRuntime) {
    let kinds = pins::kinds();
    for rising in 0..1024u32 {
        let kind = kinds[rising as usize];
        let digest = all_made(others(patterns(rising), rising), rising);
        let _ = println!(rt; "{kind} {digest}");
    }
}
