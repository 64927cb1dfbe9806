// The answer of a read.
use crate::error::Error;
use crate::packet_record::Packet;
use crate::span::Bounds;

// The record, where its properties start and end, and how many bytes of the stream are taken; or the refusal, and how many.
pub type Read = Result<(Packet, Bounds, usize), (Error, usize)>;
