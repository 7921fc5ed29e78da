// Reads one WARN packet from standard input and writes its sentence, or its refusal. Whether the output can be written is not looked at.

#![tactic(auto)]

use sheet::Found;
use std::io;

fn print_answer(rt: &impl Print, packet: &[u8]) -> io::Result<()> {
    match packet::packet_sheet(packet) {
        Ok(facts) => output::write_sentence(&mut io::writer(rt), packet, Found::Warn(facts)),
        Err(fault) => println!(rt; "refused {} at 0", u8::from(fault)),
    }
}

fn main(rt: HostRuntime) {
    let mut buffer = [0u8; 1201]; // one byte more than a packet may have: what follows can't change the answer
    let _ = match input::read_whole_input(&mut rt.reader(), &mut buffer) {
        Ok(input) => print_answer(&rt, input.bytes),
        Err(_) => println!(rt; "input can't be read"),
    };
}
