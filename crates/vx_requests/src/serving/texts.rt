//! Answers WriteImagePgm: the samples are parsed straight into the image's new samples.
ghost use Rattle.std.specs.Prelude.{◌≡◌, Some};
ghost use Rattle.vx_wire.specs.declared.op.Op.TheVariants.{WriteImagePgm};
ghost use Rattle.vx_wire.specs.Op.{op_numbered};
ghost use Rattle.vx_wire.specs.Replies.{said_of};
ghost use Rattle.vx_requests.specs.Frame.Frames.{frame_of};
ghost use Rattle.vx_requests.specs.Serving.Clients.{states_of, spelled_frame};
ghost use Rattle.vx_requests.specs.Serving.Turn.{IsReply};

use client_contexts::{NoMemory, Runtime};
use client_model::Reply;
use vx_base::Code;
use vx_wire::{ParseFault, take_image_pgm_fields};

/// Answers a WriteImagePgm that has this body, and returns the reply. The text isn't copied: its
/// samples are parsed straight into the image's new samples.
pub fn answer_write_image_pgm(runtime: &mut Runtime, client: u16, op: u8, body: &[u8]) -> Reply
    requires { op_numbered op ≡ Some WriteImagePgm }
    ensures replies { IsReply runtime.old.limits (frame_of client op body.now)
        (states_of runtime.old) (states_of runtime.new) (spelled_frame client op (said_of result)) }
    ensures limits { runtime.new.limits ≡ runtime.old.limits }
{
    match take_image_pgm_fields(body) {
        Ok(fields) => match runtime.write_text(client, fields.0, fields.1) {
            Ok(reply) => reply,
            Err(NoMemory) => Reply::Refused(Code::NoMemory),
        },
        Err(fault) => Reply::Refused(ParseFault::from(fault).code()),
    }
}
