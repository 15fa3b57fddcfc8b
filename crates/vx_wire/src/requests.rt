//! The bodies of requests. The modules parse those with samples, entries or a text.
ghost use Rattle.std.specs.Prelude.{◌≡◌};
ghost use Rattle.client_model.specs.declared.request.Request.{Request as RequestValue};
ghost use Rattle.vx_wire.specs.Fields.{at_end, one_field, two_fields};

pub mod images;
pub mod tables;

use crate::body_fault::BodyFault;
use crate::fields::{Field, Fields};
use client_model::Request;

/// Parses the body of a request without fields, which is empty.
pub fn no_field(body: &[u8], request: Request) -> Result<Request, BodyFault>
    ensures { result ≡ at_end request body.now }
{
    Fields::new(body).end()?;
    Ok(request)
}

/// Parses a body of one field. `request` is the variant that holds the field.
pub fn one_field<A: Field, M: FnOnce(A) -> Request>(
    body: &[u8],
    request: M,
) -> Result<Request, BodyFault>
    requires { M.IsAlwaysCallable request }
    ensures { (made : A → RequestValue) →
        ((x : A) (r : RequestValue) → M.post request x r → r ≡ made x) →
        result ≡ one_field A.grammar made body.now }
{
    let mut fields = Fields::new(body);
    let value = A::take(&mut fields)?;
    fields.end()?;
    Ok(request(value))
}

/// Parses a body of two fields. `request` is the variant that holds the fields.
pub fn two_fields<A: Field, B: Field, M: FnOnce(A, B) -> Request>(
    body: &[u8],
    request: M,
) -> Result<Request, BodyFault>
    requires { M.IsAlwaysCallable request }
    ensures { (made : A → B → RequestValue) →
        ((x : A) (y : B) (r : RequestValue) → M.post request x y r → r ≡ made x y) →
        result ≡ two_fields A.grammar B.grammar made body.now }
{
    let mut fields = Fields::new(body);
    let first = A::take(&mut fields)?;
    let second = B::take(&mut fields)?;
    fields.end()?;
    Ok(request(first, second))
}
