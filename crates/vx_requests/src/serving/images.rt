//! Answers WriteImage. The samples are read into a block of the pool. The image then gets the
//! block's memory.
ghost use Rattle.std.specs.Prelude.{◌≡◌, ◌+◌, ◌<◌, ◌≤◌, Some, OnOk, IfOk, IfErr};
ghost use Rattle.client_model.specs.declared.reply.Reply.TheVariants.{Refused};
ghost use Rattle.vx_requests.specs.declared.serving.answered.ReplyContent.TheVariants.{Made};
ghost use Rattle.vx_wire.specs.declared.op.Op.TheVariants.{WriteImage};
ghost use Rattle.vx_wire.specs.Op.{op_numbered};
ghost use Rattle.vx_requests.specs.Frame.Reading.{CanRead, KeepsCount, ReadsPart, ReadsSome};
ghost use Rattle.vx_requests.specs.Serving.Clients.{states_of};
ghost use Rattle.vx_requests.specs.Serving.Turn.{AnswersBody};

use crate::frame::Reader;
use crate::serving::answered::ReplyContent;
use crate::stream::{Source, StreamFault};
use client_contexts::{Runtime, WriteFault};
use client_model::Reply;
use vx_base::Code;
use vx_wire::{ParseFault, take_image_head};

/// The number of bytes before the samples in the body of a WriteImage.
const HEAD: usize = 10;

/// Reads the `count` bytes of a WriteImage's body, and answers the frame.
///
/// The bytes after the first `HEAD` bytes are skipped if the body encodes no request, if the
/// request is refused, or if no memory can be allocated for the samples.
pub fn answer_write_image<S: Source>(
    reader: &mut Reader<S>,
    runtime: &mut Runtime,
    client: u16,
    op: u8,
    count: usize,
) -> Result<ReplyContent, StreamFault>
    requires op { op_numbered op ≡ Some WriteImage }
    requires long { 64 < count }
    requires can_read { CanRead S.reads S.failures reader.old }
    ensures answered { AnswersBody runtime.old.limits
        (S.left reader.old.source.now) (S.left reader.new.source.now)
        (states_of runtime.old) (states_of runtime.new) client op count result }
    ensures limits { runtime.new.limits ≡ runtime.old.limits }
    ensures counted { KeepsCount S.reads S.failures reader.old reader.new result }
    ensures sparing { S.reads reader.new.source.now ≤ S.reads reader.old.source.now + count }
{
    let mut head = [0u8; HEAD];
    reader.read_exactly(&mut head)?;
    let rest = count - HEAD;
    match take_image_head(&head, rest) {
        Ok((image, desc)) => match runtime.write_from(client, image, desc, reader) {
            Ok(()) => Ok(ReplyContent::Made(Reply::Empty)),
            Err(WriteFault::Refused(code)) => refuse(reader, rest, code),
            Err(WriteFault::Source(fault)) => Err(fault),
        },
        Err(fault) => refuse(reader, rest, ParseFault::from(fault).code()),
    }
}

/// Skips the `rest` bytes that remain of a frame, and answers the frame with this code.
fn refuse<S: Source>(
    reader: &mut Reader<S>,
    rest: usize,
    code: Code,
) -> Result<ReplyContent, StreamFault>
    requires { CanRead S.reads S.failures reader.old }
    ensures ok { OnOk result (ReadsSome
        (S.left reader.old.source.now) (S.left reader.new.source.now) rest) }
    ensures content { IfOk result (λ content. content ≡ Made (Refused code)) }
    ensures err { IfErr result (ReadsPart
        (S.left reader.old.source.now) (S.left reader.new.source.now) rest) }
    ensures counted { KeepsCount S.reads S.failures reader.old reader.new result }
    ensures sparing { S.reads reader.new.source.now ≤ S.reads reader.old.source.now + rest }
{
    reader.skip(rest)?;
    Ok(ReplyContent::Made(Reply::Refused(code)))
}
