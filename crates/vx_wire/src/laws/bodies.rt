//! Laws of the bodies of requests.
ghost use Rattle.std.specs.Prelude.{◌≡◌, ◌<◌, ◌^◌, ℕ, List, All, Ok};
ghost use Rattle.client_model.specs.declared.request.Request.{Request};
ghost use Rattle.vx_wire.specs.Op.{op_number, op_of};
ghost use Rattle.vx_wire.specs.Requests.{request_of, body_of};
ghost use Rattle.client_model.specs.Request.{IsRequest};

/// Parsing the op and the body of a request gives the request back. The request's fields must be in
/// the ranges of their types.
pub fn body_is_read_back()
    ensures { (request : Request) → IsRequest request →
        request_of (op_number (op_of request)) (body_of request) ≡ Ok request }
{}

/// A parsed request determines the op and the body that encode it. The law also ensures that the
/// fields of a parsed request are in the ranges of their types. By this law and
/// `body_is_read_back`, each request with fields in these ranges has exactly one encoding.
pub fn one_spelling()
    ensures op { (op : ℕ) (body : List ℕ) (request : Request) → All (λ b. b < 2 ^ 8) body →
        request_of op body ≡ Ok request → op ≡ op_number (op_of request) }
    ensures body { (op : ℕ) (body : List ℕ) (request : Request) → All (λ b. b < 2 ^ 8) body →
        request_of op body ≡ Ok request → body ≡ body_of request }
    ensures limits { (op : ℕ) (body : List ℕ) (request : Request) → All (λ b. b < 2 ^ 8) body →
        request_of op body ≡ Ok request → IsRequest request }
{}
