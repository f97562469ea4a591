// ACT bank 5, row 1234 hex, and NOP: their pins as they are written for the part that the writer is told, or a refusal; and what is read of the ACT.
use crate::lines::Told;
use pins::{Command, Level, Read};

const ACTIVATE: Command = Command::Act {
    bank: 5,
    row: 0x1234,
};

fn writes(rt: &impl Print, paired: bool, told: Option<u8>, command: Command) {
    let mut field = [0u8; 10];
    let _ = match pins::write_entry(paired, told, 0, command, &mut field) {
        Ok(()) => println!(rt; "{} {} {}", field[7], field[8], field[9]),
        Err(unwritten) => println!(rt; "{}", Told::from(unwritten)),
    };
}

fn tells(rt: &impl Print, paired: bool) {
    for told in [None, Some(0), Some(1), Some(2), Some(255)] {
        writes(rt, paired, told, ACTIVATE);
        writes(rt, paired, told, Command::Nop);
    }
}

fn cramped(rt: &impl Print) {
    for told in [None, Some(0), Some(1), Some(2)] {
        let mut field = [0u8; 9];
        if let Err(unwritten) = pins::write_entry(true, told, 0, ACTIVATE, &mut field) {
            let _ = println!(rt; "{}", Told::from(unwritten));
        }
    }
}

// Of two parts; its part stands first.
fn reads(rt: &impl Print, pins: u32) {
    let whose = pins::whose_pins(true, pins);
    if let Read::Plain(Ok(Command::Act { bank, row })) = pins::read_pins(
        false,
        true,
        Level::Awake,
        pins,
    ) {
        if pins::is_first(whose) {
            let _ = rt.print("0 ");
        }
        if pins::is_second(whose) {
            let _ = rt.print("1 ");
        }
        let _ = println!(rt; "{bank} {row}");
    }
}

pub fn shows(rt: &impl Print) {
    tells(rt, false);
    tells(rt, true);
    cramped(rt);
    if let Ok(Command::Act { bank, row }) = pins::decode(0x20d2ca) {
        let _ = println!(rt; "{bank} {row}");
    }
    reads(rt, 0x60d2ca);
    reads(rt, 0x30d2ca);
}
