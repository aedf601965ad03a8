//! What answers requests.
ghost use Rattle.std.specs.Prelude.{◌≢◌};

use crate::reply::Reply;
use crate::request::Request;

/// What answers requests. A session never asks it `Quit`.
pub trait Service {
    ghost use Rattle.lz_proto.specs.declared.request.Request.{Request};
    ghost use Rattle.lz_proto.specs.declared.reply.Reply.{Reply};

    /// From a state, a request may get this reply and lead to another state.
    ghost answers: { Self → Request → Reply → Self → Type 0 };

    /// Does what the request asks for, and replies.
    fn ask(&mut self, request: Request) -> Reply
        requires { request ≢ Request.Quit }
        ensures { answers self.old request result self.new };
}
