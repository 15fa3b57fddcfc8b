//! Ops, the kinds of requests. A frame has its op's number as one byte.
ghost use Rattle.std.specs.Prelude.{◌≡◌, ◌↔◌, Some};
ghost use Rattle.vx_wire.specs.declared.op.Op.{Op as RequestOp};
ghost use Rattle.vx_wire.specs.Op.{op_number, op_numbered, op_of};

use client_model::Request;

/// The kind of request that a frame holds.
#[derive(Clone, Copy, PartialEq, Eq, Debug)]
pub enum Op {
    OpenContext,
    ReleaseContext,
    CreateImage,
    QueryImage,
    WriteImage,
    WriteImagePgm,
    ReadImage,
    ReadImagePgm,
    SetValid,
    Release,
    CreateLut,
    CreateThreshold,
    CreateConvolution,
    CreateDistribution,
    ReadDistribution,
    CreateMinMax,
    ReadMinMax,
    CreateGraph,
    CreateVirtualImage,
    AddNode,
    RemoveNode,
    VerifyGraph,
    ProcessGraph,
    Immediate,
    CreateDelay,
    AgeDelay,
    RegisterAutoAging,
}

impl Op {
    /// Returns the number of the op, which is its byte in a frame.
    pub fn number(self) -> u8
        ensures { result ≡ op_number self }
    {
        match self {
            Op::OpenContext => 1,
            Op::ReleaseContext => 2,
            Op::CreateImage => 3,
            Op::QueryImage => 4,
            Op::WriteImage => 5,
            Op::WriteImagePgm => 6,
            Op::ReadImage => 7,
            Op::ReadImagePgm => 8,
            Op::SetValid => 9,
            Op::Release => 10,
            Op::CreateLut => 11,
            Op::CreateThreshold => 12,
            Op::CreateConvolution => 13,
            Op::CreateDistribution => 14,
            Op::ReadDistribution => 15,
            Op::CreateMinMax => 16,
            Op::ReadMinMax => 17,
            Op::CreateGraph => 18,
            Op::CreateVirtualImage => 19,
            Op::AddNode => 20,
            Op::RemoveNode => 21,
            Op::VerifyGraph => 22,
            Op::ProcessGraph => 23,
            Op::Immediate => 24,
            Op::CreateDelay => 25,
            Op::AgeDelay => 26,
            Op::RegisterAutoAging => 27,
        }
    }

    /// Returns the op with this number, if there is one.
    pub fn from_number(number: u8) -> Option<Op>
        ensures value { result ≡ op_numbered number }
        ensures inverse { (op : RequestOp) → (result ≡ Some op) ↔ (op_number op ≡ number) }
    {
        match number {
            1 => Some(Op::OpenContext),
            2 => Some(Op::ReleaseContext),
            3 => Some(Op::CreateImage),
            4 => Some(Op::QueryImage),
            5 => Some(Op::WriteImage),
            6 => Some(Op::WriteImagePgm),
            7 => Some(Op::ReadImage),
            8 => Some(Op::ReadImagePgm),
            9 => Some(Op::SetValid),
            10 => Some(Op::Release),
            11 => Some(Op::CreateLut),
            12 => Some(Op::CreateThreshold),
            13 => Some(Op::CreateConvolution),
            14 => Some(Op::CreateDistribution),
            15 => Some(Op::ReadDistribution),
            16 => Some(Op::CreateMinMax),
            17 => Some(Op::ReadMinMax),
            18 => Some(Op::CreateGraph),
            19 => Some(Op::CreateVirtualImage),
            20 => Some(Op::AddNode),
            21 => Some(Op::RemoveNode),
            22 => Some(Op::VerifyGraph),
            23 => Some(Op::ProcessGraph),
            24 => Some(Op::Immediate),
            25 => Some(Op::CreateDelay),
            26 => Some(Op::AgeDelay),
            27 => Some(Op::RegisterAutoAging),
            _ => None,
        }
    }

    /// Returns the op of a request.
    pub fn of(request: &Request) -> Op
        ensures { result ≡ op_of request.now }
    {
        match request {
            Request::OpenContext => Op::OpenContext,
            Request::ReleaseContext => Op::ReleaseContext,
            Request::CreateImage(_) => Op::CreateImage,
            Request::QueryImage(_) => Op::QueryImage,
            Request::WriteImage(_, _) => Op::WriteImage,
            Request::WriteImagePgm(_, _) => Op::WriteImagePgm,
            Request::ReadImage(_) => Op::ReadImage,
            Request::ReadImagePgm(_) => Op::ReadImagePgm,
            Request::SetValid(_, _) => Op::SetValid,
            Request::Release(_) => Op::Release,
            Request::CreateLut(_) => Op::CreateLut,
            Request::CreateThreshold(_) => Op::CreateThreshold,
            Request::CreateConvolution(_) => Op::CreateConvolution,
            Request::CreateDistribution(_) => Op::CreateDistribution,
            Request::ReadDistribution(_) => Op::ReadDistribution,
            Request::CreateMinMax => Op::CreateMinMax,
            Request::ReadMinMax(_) => Op::ReadMinMax,
            Request::CreateGraph => Op::CreateGraph,
            Request::CreateVirtualImage(_, _) => Op::CreateVirtualImage,
            Request::AddNode(_, _) => Op::AddNode,
            Request::RemoveNode(_, _) => Op::RemoveNode,
            Request::VerifyGraph(_) => Op::VerifyGraph,
            Request::ProcessGraph(_) => Op::ProcessGraph,
            Request::Immediate(_) => Op::Immediate,
            Request::CreateDelay(_, _) => Op::CreateDelay,
            Request::AgeDelay(_) => Op::AgeDelay,
            Request::RegisterAutoAging(_, _) => Op::RegisterAutoAging,
        }
    }
}
