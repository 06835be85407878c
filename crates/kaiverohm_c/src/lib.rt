// The archive for callers in C: each function of the library kaiverohm under its own name as a symbol, with its clauses.
// include/kaiverohm.h declares them.
#![tactic(auto)]

ghost use Rattle.reading.specs.Desk.{desk};
ghost use Rattle.reading.specs.Table.{lent};
ghost use Rattle.endpoint.specs.Calls.{LengthPromise};
ghost use Rattle.writing.specs.Writer.{CountPromise};
ghost use Rattle.c_places.specs.Places.{StreamPlacePromise, MessagePlacePromise};
ghost use Rattle.c_bursts.specs.Bursts.{BurstPromise};
ghost use Rattle.log_writer.specs.Writing.{RecordLengthPromise};
ghost use Rattle.kaiverohm.specs.Exports.{InterfacePromise, WriteRecordFromCPromise};
ghost use Rattle.kaiverohm.specs.Exports.{SetupFromCPromise, ReadFromCPromise, AbandonStreamFromCPromise, AbandonMessageFromCPromise, WriteFromCPromise};
ghost use Rattle.kaiverohm.specs.Exports.{StreamContextFromCPromise, MessageContextFromCPromise};

use c_answers::Numbers;
use c_bursts::Burst;
use c_contexts::{OpenMessage, OpenStream};
use c_places::Place;
use c_reports::Report;
use cutting::Heading;
use wire::Setup;

// The number of the interface: KAIVEROHM_INTERFACE of the header that belongs to this archive.
#[unsafe(no_mangle)]
pub extern "C" fn kaiverohm_interface() -> usize
    ensures { InterfacePromise result }
{
    kaiverohm::kaiverohm_interface()
}

// The words of a state.
#[unsafe(no_mangle)]
pub extern "C" fn kaiverohm_state_length() -> usize
    ensures { LengthPromise result }
{
    kaiverohm::kaiverohm_state_length()
}

// Makes a state.
#[unsafe(no_mangle)]
pub extern "C" fn kaiverohm_setup(state: &mut [usize], settings: Setup) -> Numbers
    ensures { SetupFromCPromise state.old settings result state.new }
{
    kaiverohm::kaiverohm_setup(state, settings)
}

// Reads one packet.
#[unsafe(no_mangle)]
pub extern "C" fn kaiverohm_read(
    state: &mut [usize],
    stream_memory: &mut [u8],
    message_memory: &mut [u8],
    response: &mut [u8],
    packet: &[u8],
) -> Report
    ensures { ReadFromCPromise (lent (desk state.old stream_memory.old message_memory.old response.old) packet.now)
        result (desk state.new stream_memory.new message_memory.new response.new) }
{
    kaiverohm::kaiverohm_read(state, stream_memory, message_memory, response, packet)
}

// Reads the packets of a burst.
#[unsafe(no_mangle)]
pub extern "C" fn kaiverohm_read_burst(
    state: &mut [usize],
    stream_memory: &mut [u8],
    message_memory: &mut [u8],
    responses: &mut [u8],
    reports: &mut [usize],
    burst: &[u8],
    pause: usize,
) -> Burst
    ensures { BurstPromise pause (desk state.old stream_memory.old message_memory.old responses.old) reports.old
        burst.now result (desk state.new stream_memory.new message_memory.new responses.new) reports.new }
{
    kaiverohm::kaiverohm_read_burst(
        state,
        stream_memory,
        message_memory,
        responses,
        reports,
        burst,
        pause,
    )
}

// What stream context n holds.
#[unsafe(no_mangle)]
pub extern "C" fn kaiverohm_stream_context(state: &[usize], n: usize) -> OpenStream
    ensures { StreamContextFromCPromise state.now n result }
{
    kaiverohm::kaiverohm_stream_context(state, n)
}

// What message context n holds.
#[unsafe(no_mangle)]
pub extern "C" fn kaiverohm_message_context(state: &[usize], n: usize) -> OpenMessage
    ensures { MessageContextFromCPromise state.now n result }
{
    kaiverohm::kaiverohm_message_context(state, n)
}

// Gives the PDU of stream context n up.
#[unsafe(no_mangle)]
pub extern "C" fn kaiverohm_abandon_stream(state: &mut [usize], n: usize) -> Numbers
    ensures { AbandonStreamFromCPromise state.old n result state.new }
{
    kaiverohm::kaiverohm_abandon_stream(state, n)
}

// Gives the message of message context n up.
#[unsafe(no_mangle)]
pub extern "C" fn kaiverohm_abandon_message(state: &mut [usize], n: usize) -> Numbers
    ensures { AbandonMessageFromCPromise state.old n result state.new }
{
    kaiverohm::kaiverohm_abandon_message(state, n)
}

// Where the first l bytes of stream context n's room lie, in a stream memory of that size.
#[unsafe(no_mangle)]
pub extern "C" fn kaiverohm_stream_room(state: &[usize], size: usize, n: usize, l: usize) -> Place
    ensures { StreamPlacePromise state.now size n l result }
{
    kaiverohm::kaiverohm_stream_room(state, size, n, l)
}

// Where the first l bytes of message context n's room lie, in a message memory of that size.
#[unsafe(no_mangle)]
pub extern "C" fn kaiverohm_message_room(state: &[usize], size: usize, n: usize, l: usize) -> Place
    ensures { MessagePlacePromise state.now size n l result }
{
    kaiverohm::kaiverohm_message_room(state, size, n, l)
}

// How many segments a PDU makes.
#[unsafe(no_mangle)]
pub extern "C" fn kaiverohm_segment_count(mtu: usize, length: usize) -> usize
    ensures { CountPromise mtu length result }
{
    kaiverohm::kaiverohm_segment_count(mtu, length)
}

// Writes one segment of a PDU.
#[unsafe(no_mangle)]
pub extern "C" fn kaiverohm_write_segment(
    out: &mut [u8],
    heading: Heading,
    mtu: usize,
    pdu: &[u8],
    number: usize,
) -> Numbers
    ensures { WriteFromCPromise out.old heading mtu pdu.now number result out.new }
{
    kaiverohm::kaiverohm_write_segment(out, heading, mtu, pdu, number)
}

// How many bytes the record of a packet has.
#[unsafe(no_mangle)]
pub extern "C" fn kaiverohm_record_length(packet_length: usize) -> usize
    ensures { RecordLengthPromise packet_length result }
{
    kaiverohm::kaiverohm_record_length(packet_length)
}

// Writes one record of a burst.
#[unsafe(no_mangle)]
pub extern "C" fn kaiverohm_write_record(out: &mut [u8], packet: &[u8]) -> Numbers
    ensures { WriteRecordFromCPromise out.old packet.now result out.new }
{
    kaiverohm::kaiverohm_write_record(out, packet)
}
