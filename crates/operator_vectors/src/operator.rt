// The operators on numbers, by the codes of their node kinds. The codes are written out: the crate is built on operators alone, not on tables.
use btor::node_type::NodeType;
use btor::operators;
use kept_lists::case::Fault;

#[derive(Clone, Copy)]
pub enum Operator {
    Add,
    Sub,
    Mul,
    Divu,
    Div,
    Rem,
    Sll,
    Srl,
    Ult,
    Ext,
    Eq,
    And,
    Or,
    Not,
}

impl TryFrom<u64> for Operator {
    type Error = Fault;

    fn try_from(code: u64) -> Result<Operator, Fault> {
        match code {
            4 => Ok(Operator::Add),
            5 => Ok(Operator::Sub),
            6 => Ok(Operator::Mul),
            7 => Ok(Operator::Divu),
            8 => Ok(Operator::Div),
            9 => Ok(Operator::Rem),
            10 => Ok(Operator::Sll),
            11 => Ok(Operator::Srl),
            12 => Ok(Operator::Ult),
            13 => Ok(Operator::Ext),
            15 => Ok(Operator::Eq),
            16 => Ok(Operator::And),
            17 => Ok(Operator::Or),
            18 => Ok(Operator::Not),
            _ => Err(Fault::Malformed),
        }
    }
}

impl Operator {
    // What it gives: a match, as some take one operand, some give a bit, and Not may find its case malformed. Ext has no right operand, and that
    // of Not is its sort's code.
    pub fn of(self, left: u64, right: u64) -> Result<u64, Fault> {
        Ok(match self {
            Operator::Add => operators::wrapping_add(left, right),
            Operator::Sub => operators::wrapping_sub(left, right),
            Operator::Mul => operators::wrapping_mul(left, right),
            Operator::Divu => operators::btor_u64_divu(left, right),
            Operator::Div => operators::btor_u64_div(left, right),
            Operator::Rem => operators::btor_u64_rem(left, right),
            Operator::Sll => operators::btor_u64_sll(left, right),
            Operator::Srl => operators::btor_u64_srl(left, right),
            Operator::Ult => u64::from(operators::ult(left, right)),
            Operator::Ext => operators::ext(left),
            Operator::Eq => u64::from(operators::eq(left, right)),
            Operator::And => operators::and(left, right),
            Operator::Or => operators::or(left, right),
            Operator::Not => {
                let sort = NodeType::try_from(right).map_err(|_| Fault::Malformed)?;
                operators::not(left, sort)
            }
        })
    }
}
