// The sorts of nodes, as in mod.rs: codes, widths and all-ones belong to the sort.
ghost use Rattle.std.specs.Prelude.{◌≡◌};
ghost use Rattle.btor.specs.Sorts.{code_of, width_of, ones_of, sort_of};

#[derive(Clone, Copy, Debug, PartialEq, Eq)]
pub enum NodeType {
    Bit = 1,
    Word = 2,
    Memory = 3,
    Input1Byte = 11,
    Input2Byte = 12,
    Input3Byte = 13,
    Input4Byte = 14,
    Input5Byte = 15,
    Input6Byte = 16,
    Input7Byte = 17,
}

// A word that is the code of no sort.
#[derive(Clone, Copy, Debug, PartialEq, Eq)]
pub struct UnknownSort(pub u64);

// The codes are associated constants, as the project's rules ask: code is compared with them where no sort is at hand.
impl NodeType {
    pub const BIT: u64 = NodeType::Bit as u64;

    pub const WORD: u64 = NodeType::Word as u64;

    pub const MEMORY: u64 = NodeType::Memory as u64;

    pub const INPUT_1_BYTE: u64 = NodeType::Input1Byte as u64;

    pub const INPUT_2_BYTE: u64 = NodeType::Input2Byte as u64;

    pub const INPUT_3_BYTE: u64 = NodeType::Input3Byte as u64;

    pub const INPUT_4_BYTE: u64 = NodeType::Input4Byte as u64;

    pub const INPUT_5_BYTE: u64 = NodeType::Input5Byte as u64;

    pub const INPUT_6_BYTE: u64 = NodeType::Input6Byte as u64;

    pub const INPUT_7_BYTE: u64 = NodeType::Input7Byte as u64;

    // The code that stands for the sort in a table and in BTOR2 text.
    pub fn get_sort(self) -> u64
        ensures { result ≡ code_of self }
    {
        self as u64
    }

    // How many bits a number of the sort has. A memory is no number: 0.
    pub fn bitsize(self) -> u64
        ensures { result ≡ width_of self }
    {
        match self {
            NodeType::Bit => 1,
            NodeType::Word => 64,
            NodeType::Memory => 0,
            NodeType::Input1Byte => 8,
            NodeType::Input2Byte => 16,
            NodeType::Input3Byte => 24,
            NodeType::Input4Byte => 32,
            NodeType::Input5Byte => 40,
            NodeType::Input6Byte => 48,
            NodeType::Input7Byte => 56,
        }
    }

    // All ones of the sort's width; 0 for a memory.
    pub fn ones(self) -> u64
        ensures { result ≡ ones_of self }
    {
        let width = self.bitsize();
        if width == 0 {
            0
        } else {
            u64::MAX >> (64 - width)
        }
    }
}

// The sort that a code names.
impl TryFrom<u64> for NodeType {
    type Error = UnknownSort;

    ghost try_from_gives = { λ code named. named ≡ sort_of code };

    fn try_from(code: u64) -> Result<NodeType, UnknownSort> {
        match code {
            NodeType::BIT => Ok(NodeType::Bit),
            NodeType::WORD => Ok(NodeType::Word),
            NodeType::MEMORY => Ok(NodeType::Memory),
            NodeType::INPUT_1_BYTE => Ok(NodeType::Input1Byte),
            NodeType::INPUT_2_BYTE => Ok(NodeType::Input2Byte),
            NodeType::INPUT_3_BYTE => Ok(NodeType::Input3Byte),
            NodeType::INPUT_4_BYTE => Ok(NodeType::Input4Byte),
            NodeType::INPUT_5_BYTE => Ok(NodeType::Input5Byte),
            NodeType::INPUT_6_BYTE => Ok(NodeType::Input6Byte),
            NodeType::INPUT_7_BYTE => Ok(NodeType::Input7Byte),
            _ => Err(UnknownSort(code)),
        }
    }
}
