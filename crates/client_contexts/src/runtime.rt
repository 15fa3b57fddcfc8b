//! All clients, and the replies to their requests.
ghost use Rattle.std.specs.Prelude.{◌≡◌, ◌≤◌, [], None, Some, Ok, IfSome, IfOk, IfErr, OnOk, OnErr};
ghost use Rattle.std.specs.Prelude.{is_some};
ghost use Rattle.std.specs.BTreeMap.{is_at};
ghost use Rattle.std.specs.Map.{lookup};
ghost use Rattle.std.specs.Option.{option_map};
ghost use Rattle.std.specs.Ordering.{nat_cmp};
ghost use Rattle.vx_base.specs.declared.format.Format.TheVariants.{U8 as FormatU8};
ghost use Rattle.vx_base.specs.Image.{IsImage};
ghost use Rattle.vx_base.specs.Picture.{picture_of};
ghost use Rattle.pgm_images.specs.Writing.{pgm_text};
ghost use Rattle.client_model.specs.declared.request.Request.TheVariants.{ReleaseContext};
ghost use Rattle.client_model.specs.declared.request.Request.TheVariants.{ReadImage};
ghost use Rattle.client_model.specs.declared.request.Request.TheVariants.{WriteImagePgm};
ghost use Rattle.client_model.specs.declared.request.Request.TheVariants.{ReadImagePgm};
ghost use Rattle.client_model.specs.declared.reply.Reply.TheVariants as replies;
ghost use Rattle.client_contexts.specs.Applies.{Applies, AppliesToKept, IsAnswered};
ghost use Rattle.client_contexts.specs.Blocks.{clients_blocks};
ghost use Rattle.client_contexts.specs.Incoming.{WritesReadPicture, SaysWhyUnwritten, IsRefused};
ghost use Rattle.client_contexts.specs.Kept.{IsKept};
ghost use Rattle.client_contexts.specs.World.{state_of, verified_of};
ghost use Rattle.object_table.specs.Context.{Context};

use crate::client::Client;
use crate::fault::RequestFault;
use crate::kept::KeptGraph;
use crate::memory::NoMemory;
use crate::source::{FillsSamples, WriteFault};
use client_model::{Limits, Reply, Request};
use graph_run::Workspace;
use object_table::Stored;
use pixel_pool::Pool;
use std::alloc::Global;
use std::collections::BTreeMap;
use std::marker::Model;
use vx_base::{Code, Desc, Format, ObjRef};

/// The open contexts (at most one for each client), a pool, and lists for runs. The pool's blocks
/// hold the samples of the clients' images. Runs of graphs reuse the memory of the lists.
#[derive(Drop)]
pub struct Runtime {
    alloc: Global,
    limits: Limits,
    contexts: BTreeMap<u16, Client>,
    pool: Pool,
    lists: Workspace,
}

impl Model for Runtime {
    ghost use Rattle.client_contexts.specs.Blocks.{IsRuntime};
    ghost use Rattle.client_contexts.specs.World.{World};

    ghost Value = { World };

    ghost view = { λ r. record { limits = r.limits; contexts = r.contexts.entries } };

    ghost invariant = { λ r. IsRuntime r.limits r.contexts.entries r.pool };
}

impl Runtime {
    /// Returns a runtime without contexts. Allocates nothing; contexts are allocated with `alloc`.
    pub fn new(alloc: Global, limits: Limits) -> Runtime
        ensures { result ≡ record { limits = limits; contexts = [] } }
    {
        Runtime {
            alloc,
            limits,
            contexts: BTreeMap::new(alloc),
            pool: Pool::new(alloc),
            lists: Workspace::new(alloc),
        }
    }

    /// Returns the number of lent blocks of a format. It is the number of the clients' images of
    /// this format, including slots of delays.
    pub fn lent(&self, format: Format) -> usize
        ensures { result ≡ clients_blocks self.now.contexts format }
    {
        self.pool.lent(format)
    }

    /// Returns the number of blocks of a format, lent and free. It is at least the number of lent
    /// blocks.
    pub fn blocks(&self, format: Format) -> usize
        ensures { clients_blocks self.now.contexts format ≤ result }
    {
        self.pool.blocks(format)
    }

    /// Returns whether a client has an open context.
    pub fn has_context(&self, client: u16) -> bool
        ensures { result ≡ is_some (state_of client self.now) }
    {
        self.contexts.contains_key(&client)
    }

    /// Returns the cache entry of a client's graph, or `None`. The entry has the verification, the
    /// slots of the virtual images and the schedule of a run, all for the graph's current nodes.
    /// Once VerifyGraph or ProcessGraph has succeeded, the graph has an entry until its nodes
    /// change, or its name or context is released.
    pub fn kept(&self, client: u16, graph: u32) -> Option<&KeptGraph>
        ensures holds { IfSome result (λ kept. (context : Context) ×
            (state_of client self.now ≡ Some context) × IsKept context graph kept.now) }
        ensures work { option_map (λ kept. kept.now.work) result
            ≡ lookup (is_at (nat_cmp graph)) (verified_of client self.now) }
    {
        self.contexts.get(&client)?.kept(graph)
    }

    /// Drops the free blocks, whose memory goes back to the system. No context or cache changes.
    pub fn drop_free(&mut self)
        ensures { self.new ≡ self.old }
    {
        self.pool.drop_free();
    }

    /// Returns the result of `ask`. If `ask` finds no memory, drops the free blocks and calls `ask`
    /// once more.
    pub fn ask_again<T: Drop, F: Fn() -> Result<T, NoMemory> + Drop>(
        &mut self,
        ask: F,
    ) -> Result<T, NoMemory>
        requires { F.IsAlwaysCallable ask }
        ensures given { F.post ask result }
        ensures same { self.new ≡ self.old }
    {
        match ask() {
            Ok(given) => Ok(given),
            Err(NoMemory) => {
                self.drop_free();
                ask()
            }
        }
    }

    /// Drops free blocks beyond the pool's limits.
    fn trim(&mut self)
        ensures { self.new ≡ self.old }
    {
        self.pool.trim();
    }

    /// Answers a request of a client. The contents of a reply are allocated with `alloc`.
    ///
    /// The result is `NoMemory` only if an allocation failed; then no state is changed. A graph
    /// that was verified or has run stays in the client's cache until its nodes change, or its name
    /// or context is released. While a graph is in the cache, VerifyGraph of this graph takes no
    /// memory. Before `apply` returns, free blocks beyond the pool's limits are dropped.
    pub fn apply(
        &mut self,
        alloc: Global,
        client: u16,
        request: &Request,
    ) -> Result<Reply, NoMemory>
        ensures applies { Applies client request.now self.old self.new result }
        ensures kept { AppliesToKept client request.now self.old self.new result }
    {
        let result = self.answer_or_again(alloc, client, request);
        self.trim();
        result
    }

    /// Answers a request of a client, as `apply` does. If the request finds no memory, drops the
    /// free blocks and tries once more.
    fn answer_or_again(
        &mut self,
        alloc: Global,
        client: u16,
        request: &Request,
    ) -> Result<Reply, NoMemory>
        ensures applies { Applies client request.now self.old self.new result }
        ensures kept { AppliesToKept client request.now self.old self.new result }
    {
        match self.answer(alloc, client, request) {
            Ok(reply) => Ok(reply),
            Err(NoMemory) => {
                self.drop_free();
                self.answer(alloc, client, request)
            }
        }
    }

    /// Answers a request of a client, as `apply` does.
    fn answer(&mut self, alloc: Global, client: u16, request: &Request) -> Result<Reply, NoMemory>
        ensures applies { Applies client request.now self.old self.new result }
        ensures kept { AppliesToKept client request.now self.old self.new result }
    {
        let limits = self.limits;
        if let Request::ReleaseContext = request {
            return Ok(self.release_context(client));
        }
        match self.contexts.get_mut(&client) {
            Some(held) => {
                let (lists, pool) = (&mut self.lists, &mut self.pool);
                match held.answer(lists, pool, limits, alloc, request) {
                    Ok(reply) => Ok(reply),
                    Err(RequestFault::Refused(refusal)) => Ok(Reply::Refused(refusal.code())),
                    Err(RequestFault::NoMemory) => Err(NoMemory),
                }
            }
            None => self.answer_without(client, request),
        }
    }

    /// Writes a picture of this description to an image of a client. The samples are read from the
    /// source into memory that the image then takes over. If a picture of this description is
    /// refused or there is no memory for it, nothing is read.
    pub fn write_from<F: FillsSamples>(
        &mut self,
        client: u16,
        reference: ObjRef,
        desc: Desc,
        source: &mut F,
    ) -> Result<(), WriteFault<F::Fault>>
        requires { F.can_fill source.old }
        ensures written { OnOk result (WritesReadPicture F.fills desc source.old source.new
            client reference self.old self.new) }
        ensures err { IfErr result (SaysWhyUnwritten F.fills desc source.old source.new
            (IsRefused client reference desc self.old)) }
        ensures same { OnErr result (self.new ≡ self.old) }
    {
        let result = self.write_once(client, reference, desc, source);
        self.trim();
        result
    }

    /// Writes a picture, as `write_from` does.
    fn write_once<F: FillsSamples>(
        &mut self,
        client: u16,
        reference: ObjRef,
        desc: Desc,
        source: &mut F,
    ) -> Result<(), WriteFault<F::Fault>>
        requires { F.can_fill source.old }
        ensures written { OnOk result (WritesReadPicture F.fills desc source.old source.new
            client reference self.old self.new) }
        ensures err { IfErr result (SaysWhyUnwritten F.fills desc source.old source.new
            (IsRefused client reference desc self.old)) }
        ensures same { OnErr result (self.new ≡ self.old) }
    {
        let Some(held) = self.contexts.get_mut(&client) else {
            return Err(WriteFault::Refused(Code::InvalidReference));
        };
        held.write_from(&mut self.pool, reference, desc, source)
    }

    /// Writes the picture of a PGM text to an image of a client. The samples are read from the text
    /// into memory that the image then takes over. The result is `NoMemory` only if an allocation
    /// failed; then nothing is changed.
    pub fn write_text(
        &mut self,
        client: u16,
        reference: ObjRef,
        text: &[u8],
    ) -> Result<Reply, NoMemory>
        ensures applies { Applies client (WriteImagePgm reference text.now)
            self.old self.new result }
        ensures kept { AppliesToKept client (WriteImagePgm reference text.now)
            self.old self.new result }
    {
        let result = self.write_text_once(client, reference, text);
        self.trim();
        result
    }

    /// Writes the picture of a text, as `write_text` does.
    fn write_text_once(
        &mut self,
        client: u16,
        reference: ObjRef,
        text: &[u8],
    ) -> Result<Reply, NoMemory>
        ensures applies { Applies client (WriteImagePgm reference text.now)
            self.old self.new result }
        ensures kept { AppliesToKept client (WriteImagePgm reference text.now)
            self.old self.new result }
    {
        let Some(held) = self.contexts.get_mut(&client) else {
            return Ok(Reply::Refused(Code::InvalidReference));
        };
        match held.write_text(&mut self.pool, reference, text) {
            Ok(reply) => Ok(reply),
            Err(RequestFault::Refused(refusal)) => Ok(Reply::Refused(refusal.code())),
            Err(RequestFault::NoMemory) => Err(NoMemory),
        }
    }

    /// Returns the image that a client's reference names. The error is the code with which
    /// ReadImage of this reference is refused.
    pub fn image(&self, client: u16, reference: ObjRef) -> Result<&Stored, Code>
        ensures ok { IfOk result (λ image. IsAnswered client (ReadImage reference) self.now
            (replies.Picture (picture_of image.now))) }
        ensures err { IfErr result (λ code. IsAnswered client (ReadImage reference) self.now
            (replies.Refused code)) }
        ensures image { IfOk result (λ image. IsImage image.now) }
    {
        match self.contexts.get(&client) {
            Some(held) => match held.image(reference) {
                Ok(image) => Ok(image),
                Err(refusal) => Err(refusal.code()),
            },
            None => Err(Code::InvalidReference),
        }
    }

    /// Returns the U8 image that a client's reference names. The error is the code with which
    /// ReadImagePgm of this reference is refused.
    pub fn text_image(&self, client: u16, reference: ObjRef) -> Result<&Stored, Code>
        ensures ok { IfOk result (λ image. IsAnswered client (ReadImagePgm reference) self.now
            (replies.Text (pgm_text (picture_of image.now)))) }
        ensures err { IfErr result (λ code. IsAnswered client (ReadImagePgm reference) self.now
            (replies.Refused code)) }
        ensures image { IfOk result (λ image. IsImage image.now) }
        ensures format { IfOk result (λ image. image.now.format ≡ FormatU8) }
    {
        match self.contexts.get(&client) {
            Some(held) => match held.text_image(reference) {
                Ok(image) => Ok(image),
                Err(refusal) => Err(refusal.code()),
            },
            None => Err(Code::InvalidReference),
        }
    }

    /// Releases the context of a client: drops all objects of the context, and gives the blocks of
    /// their images back to the pool. Refused if the client has no context.
    fn release_context(&mut self, client: u16) -> Reply
        ensures applies { Applies client ReleaseContext self.old self.new (Ok result) }
        ensures kept { AppliesToKept client ReleaseContext self.old self.new (Ok result) }
    {
        match self.contexts.remove(&client) {
            Some(held) => {
                held.end(&mut self.pool);
                Reply::Empty
            }
            None => Reply::Refused(Code::InvalidReference),
        }
    }

    /// Answers a request of a client that has no context.
    fn answer_without(&mut self, client: u16, request: &Request) -> Result<Reply, NoMemory>
        requires { state_of client self.old ≡ None }
        ensures applies { Applies client request.now self.old self.new result }
        ensures kept { AppliesToKept client request.now self.old self.new result }
    {
        match request {
            Request::OpenContext => {
                self.contexts.insert(client, Client::new(self.alloc))?;
                Ok(Reply::Empty)
            }
            _ => Ok(Reply::Refused(Code::InvalidReference)),
        }
    }
}
