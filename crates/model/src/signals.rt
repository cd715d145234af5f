// What a refusal says: one fault type for every layer of the kernel.
ghost use Rattle.std.specs.Prelude.{◌≡◌, Some};
ghost use Rattle.model.specs.Signals.{number, layer, fault, name, text};

use std::error::Error;
use std::fmt;

// A signal by its name and its number; its layer is below.
#[derive(Clone, Copy, Debug, PartialEq, Eq)]
pub enum Signal {
    Sproc = -1,
    Sstop = -2,
    Spath = -3,
    Sindex = -4,
    Snull = -5,
    Stempl = -6,
    Sgone = -7,
    Srts = -8,
    Stype = -9,
    Sfull = -10,
    Slim = -11,
    Sroom = -12,
    Snames = -13,
    Sdepth = -14,
    Sargs = -15,
    Schk = -16,
    Svalue = -17,
    Smask = -18,
}

// The layers of the kernel, from the caller down.
#[derive(Clone, Copy, Debug, PartialEq, Eq)]
pub enum Layer {
    Process = 1,
    Path = 2,
    Object = 3,
    Shelf = 4,
}

// A signal, its detail and the layer that it arose in.
#[derive(Clone, Copy, Debug, PartialEq, Eq)]
pub struct Fault {
    pub signal: Signal,
    pub detail: u8,
    pub layer: Layer,
}

impl Signal {
    pub fn number(self) -> i32
        ensures { result ≡ number self }
    {
        self as i32
    }

    pub fn layer(self) -> Layer
        ensures { result ≡ layer self }
    {
        match self {
            Signal::Sproc | Signal::Sstop | Signal::Sdepth | Signal::Svalue => Layer::Process,
            Signal::Spath
            | Signal::Sindex
            | Signal::Snull
            | Signal::Stempl
            | Signal::Sgone
            | Signal::Srts
            | Signal::Sfull => Layer::Path,
            Signal::Stype
            | Signal::Sroom
            | Signal::Snames
            | Signal::Sargs
            | Signal::Schk
            | Signal::Smask => Layer::Object,
            Signal::Slim => Layer::Shelf,
        }
    }
}

impl fmt::Display for Signal {
    ghost output = { λ signal. Some (name signal) };

    fn fmt<W: fmt::Write>(&self, f: &mut fmt::Formatter<W>) -> fmt::Result {
        f.write_str(match self {
            Signal::Sproc => "SPROC",
            Signal::Sstop => "SSTOP",
            Signal::Spath => "SPATH",
            Signal::Sindex => "SINDEX",
            Signal::Snull => "SNULL",
            Signal::Stempl => "STEMPL",
            Signal::Sgone => "SGONE",
            Signal::Srts => "SRTS",
            Signal::Stype => "STYPE",
            Signal::Sfull => "SFULL",
            Signal::Slim => "SLIM",
            Signal::Sroom => "SROOM",
            Signal::Snames => "SNAMES",
            Signal::Sdepth => "SDEPTH",
            Signal::Sargs => "SARGS",
            Signal::Schk => "SCHK",
            Signal::Svalue => "SVALUE",
            Signal::Smask => "SMASK",
        })
    }
}

impl Fault {
    pub fn new(signal: Signal, detail: u8) -> Fault
        ensures { result ≡ fault signal detail }
    {
        Fault {
            signal,
            detail,
            layer: signal.layer(),
        }
    }
}

impl fmt::Display for Fault {
    ghost output = { λ fault. Some (text fault) };

    fn fmt<W: fmt::Write>(&self, f: &mut fmt::Formatter<W>) -> fmt::Result {
        let number = self.signal.number();
        let name = self.signal;
        let detail = self.detail;
        let layer = self.layer as u8;
        write!(f, "{number} {name} detail {detail} layer {layer}")
    }
}

impl Error for Fault {}
