//! A link in memory that is cut once.

use cf_base::Failed;
use cf_http::Link;
use cf_http_links::MemLink;

/// A link whose next read gives at most so many bytes, and every later one all that it has room
/// for.
#[derive(Drop)]
pub struct CutLink {
    pub link: MemLink,
    pub most: usize,
}

impl Link for CutLink {
    ghost use Rattle.cf_http_links.specs.Memory.{tells_of};

    ghost tells = { λ l. tells_of l.link };

    fn read(&mut self, buf: &mut [u8]) -> Result<usize, Failed> {
        let most = buf.len().min(self.most.max(1));
        self.most = usize::MAX;
        self.link.read(&mut buf[..most])
    }

    fn write(&mut self, piece: &[u8]) -> Result<usize, Failed> {
        self.link.write(piece)
    }
}
