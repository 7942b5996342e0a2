// The exporters that rows name.
use crate::row::begins;

#[derive(Clone, Copy)]
pub(crate) enum Exporter {
    Binary,
    Str,
    Binstr,
    Hexstr,
    Readmemb,
    Readmemh,
    Separator,
    CArray,
    List,
    Mif,
    Logisim,
    Dump,
    Bindump,
    Hexdump,
    Blocks,
    Intelhex,
    Annotated,
}

impl Exporter {
    // All, in the order in which they are reported.
    pub(crate) const ALL: [Exporter; 17] = [
        Exporter::Binary,
        Exporter::Str,
        Exporter::Binstr,
        Exporter::Hexstr,
        Exporter::Readmemb,
        Exporter::Readmemh,
        Exporter::Separator,
        Exporter::CArray,
        Exporter::List,
        Exporter::Mif,
        Exporter::Logisim,
        Exporter::Dump,
        Exporter::Bindump,
        Exporter::Hexdump,
        Exporter::Blocks,
        Exporter::Intelhex,
        Exporter::Annotated,
    ];

    pub(crate) fn name(self) -> &'static str {
        match self {
            Exporter::Binary => "binary",
            Exporter::Str => "str",
            Exporter::Binstr => "binstr",
            Exporter::Hexstr => "hexstr",
            Exporter::Readmemb => "readmemb",
            Exporter::Readmemh => "readmemh",
            Exporter::Separator => "separator",
            Exporter::CArray => "c_array",
            Exporter::List => "list",
            Exporter::Mif => "mif",
            Exporter::Logisim => "logisim",
            Exporter::Dump => "dump",
            Exporter::Bindump => "bindump",
            Exporter::Hexdump => "hexdump",
            Exporter::Blocks => "get_blocks",
            Exporter::Intelhex => "intelhex",
            Exporter::Annotated => "annotated",
        }
    }

    // Whether a row names it.
    pub(crate) fn is_of(self, row: &[u8]) -> bool {
        let name = self.name().as_bytes();
        begins(row, name) && begins(&row[name.len()..], b" ")
    }
}
