// The loop of a program that carries out commands from its input. A command is a letter, a byte after some
// letters, and further bytes; input that ends within a command counts as followed by zeros.
use crate::block::Block;
use crate::input::Source;
use crate::output::Sink;
use std::io;
use std::io::Write;

// What a program keeps from one command to the next, and how it takes its commands.
pub trait Program {
    // What a command asks for.
    type Command: Copy;

    // Whether a byte follows the letter.
    fn has_byte(_letter: u8) -> bool {
        true
    }

    fn command_of(letter: u8) -> Option<Self::Command>;

    // How many bytes follow the letter and the byte after it.
    fn body(command: Self::Command, byte: u8) -> u8;

    // Carries a command out and answers. Its further bytes are the first of `block`, and the rest is 0.
    fn run<W: Write>(
        &mut self,
        output: &mut Sink<W>,
        command: Self::Command,
        byte: u8,
        block: &Block,
    );
}

// Carries commands out until a letter stands for none, or the input ends, which reads as the letter 0.
// A proved loop has to end, so it counts its turns, up to a number that no run reaches.
pub fn run_all<P: Program>(rt: &(impl Input + Print), program: &mut P) {
    let mut input = Source::new(rt.reader());
    let mut output = Sink::new(io::writer(rt));
    for _ in 0..u64::MAX {
        let letter = input.next();
        let byte = if P::has_byte(letter) { input.next() } else { 0 };
        let Some(command) = P::command_of(letter) else {
            break;
        };
        let mut block = [0; 255];
        input.fill(&mut block[..usize::from(P::body(command, byte))]);
        program.run(&mut output, command, byte, &block);
    }
    output.flush();
}
