// The proxy's own response.
ghost use Rattle.std.specs.Prelude.{◌≡◌};
ghost use Rattle.proxy.specs.Responses.{unavailable};

/// There is no connection to the origin.
#[tactic(auto, unfolding(crate::specs::Responses::unavailable))]
pub fn service_unavailable() -> &'static [u8]
    ensures { result.now ≡ unavailable }
{
    b"HTTP/1.1 503 Service Unavailable\r\ncontent-length: 0\r\n\r\n"
}
