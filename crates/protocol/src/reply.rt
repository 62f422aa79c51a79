// A reply, cut to the length that the command allows.
ghost use Rattle.std.specs.Prelude.{◌≡◌, ◌≤◌, length};
ghost use Rattle.protocol.specs.Reply.{cut_reply, report, configuration_reply, no_reply};

// What a reply says: bytes that it holds itself, zeros after them, or what GET CONFIGURATION says, which is longer than any other report and
// is written only where it is sent. Request type and start stand apart, as `decode` gives them and the functions of `features` take them.
#[derive(Clone, Copy)]
pub enum Content {
    Own([u8; Reply::LIMIT]),
    Configuration { request_type: u8, start: u16 },
}

// A reply by value: what it says, and how many bytes of that are sent. The length stands beside bytes of fixed number, since there is no heap,
// and since what GET CONFIGURATION says is not made yet.
#[derive(Clone, Copy)]
pub struct Reply {
    pub content: Content,
    pub length: usize,
}

impl Reply {
    // The most bytes that a reply holds itself.
    pub const LIMIT: usize = 36;

    // A reply of so many bytes, of which at most the allocation length is sent.
    fn cut(content: Content, whole: usize, allocation: usize) -> Reply
        ensures { result ≡ cut_reply content whole allocation }
    {
        Reply {
            content,
            length: whole.min(allocation),
        }
    }

    // A report that the reply holds itself.
    pub(crate) fn report(said: &[u8], allocation: usize) -> Reply
        requires { length said.now ≤ 36 }
        ensures { result ≡ report said.now allocation }
    {
        let mut bytes = [0u8; Reply::LIMIT];
        bytes[..said.len()].copy_from_slice(said);
        Reply::cut(Content::Own(bytes), said.len(), allocation)
    }

    // No bytes.
    pub fn none() -> Reply
        ensures { result ≡ no_reply }
    {
        Reply::report(&[], 0)
    }

    // GET CONFIGURATION's reply.
    pub fn of_configuration(request_type: u8, start: u16, allocation: usize) -> Reply
        ensures { result ≡ configuration_reply request_type start allocation }
    {
        let whole = features::configuration_length(request_type, start);
        let content = Content::Configuration {
            request_type,
            start,
        };
        Reply::cut(content, whole, allocation)
    }
}
