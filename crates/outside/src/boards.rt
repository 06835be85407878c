// An endpoint that reads packets and prints what it answers.
ghost use Rattle.std.specs.Prelude.{ℕ, ⊤, Result, ◌≡◌, ◌<◌, ◌^◌, List, replicate};
ghost use Rattle.refusals.specs.declared.Refusal.{Refusal};
ghost use Rattle.answers.specs.declared.Reading.{Reading as ReadingOf};
ghost use Rattle.contexts.specs.Words.{state_words};
ghost use Rattle.endpoint.specs.Calls.{SetupPromise};
ghost use Rattle.outside.specs.Packets.{BoardReads};

use answers::Reading;
use endpoint::Setup;
use printing::{print_bytes, print_text};

// An endpoint's state and its memories.
#[derive(Drop)]
pub struct Board {
    pub state: [usize; contexts::WORDS],
    pub streams: [u8; 32768],
    pub messages: [u8; 32768],
}

// A board that is set up.
pub fn new(settings: Setup) -> Board
    ensures { (begun : Result ⊤ Refusal) × SetupPromise (replicate state_words 0) settings begun result.state }
{
    let mut state = [0; contexts::WORDS];
    let _ = endpoint::setup(&mut state, settings);
    Board {
        state,
        streams: [0; 32768],
        messages: [0; 32768],
    }
}

// Sets a board up anew. Its memories keep what they hold.
pub fn begin(board: &mut Board, settings: Setup)
    ensures set_up { (begun : Result ⊤ Refusal) × SetupPromise board.old.state settings begun board.new.state }
    ensures kept { (board.new.streams ≡ board.old.streams) × (board.new.messages ≡ board.old.messages) }
{
    let _ = endpoint::setup(&mut board.state, settings);
}

// Reads one packet, with a response buffer of N zeros.
pub fn read<const N: usize>(board: &mut Board, packet: &[u8]) -> (Reading, [u8; N])
    ensures { BoardReads N board.old packet.now result.0 result.1 board.new }
{
    let mut response = [0; N];
    let reading = endpoint::read(
        &mut board.state,
        &mut board.streams,
        &mut board.messages,
        &mut response,
        packet,
    );
    (reading, response)
}

// A response, or `none`: a response that was written does not begin with 0.
fn print_response(rt: &impl Print, response: &[u8]) {
    if let [0, ..] = response {
        print_text(rt, b"none\n");
    } else {
        print_bytes(rt, b"", response);
        print_text(rt, b"\n");
    }
}

// Reads one packet, and prints its line and the response that was written, which has N bytes.
pub fn print_packet<const N: usize>(rt: &impl Print, board: &mut Board, packet: &[u8])
    requires { N < 2 ^ 63 }
    ensures { (reading : ReadingOf Refusal) × (response : List ℕ) × BoardReads N board.old packet.now reading response board.new }
{
    let (reading, response) = read::<N>(board, packet);
    let mut line = [0; log_lines::LINE];
    let size = log_lines::write_line(&mut line, reading);
    print_text(rt, &line[..size]);
    print_response(rt, &response);
}
