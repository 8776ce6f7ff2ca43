// The tags, as an instruction moves them.
ghost use Rattle.std.specs.Prelude.{◌≡◌, ◌+◌, ◌/◌, get_or, replicate};
ghost use Rattle.riscu.specs.Limits.{memory_words};
ghost use Rattle.words.specs.Word.{word, widen};
ghost use Rattle.riscu.specs.declared.Instruction.TheVariants.{Ecall};
ghost use Rattle.corners.specs.Working.Tags.{tag_in, operand_tag, tag_by, to_register, to_memory};
ghost use Rattle.lockstep.specs.Working.LockStep.{tagged, tags_of, with_tags, Marks, Hangs};

use crate::Machines;
use listing::{Operand, Sorting, sorting_of};
use riscu::plain::{Machine, Registers, load, offset, put, register, store};
use riscu::{At, Instruction};

// The input that an operand hangs on; a constant hangs on none.
fn tag_in(o: Operand, tags: &Registers) -> u64
    ensures { result ≡ tag_in o tags.now }
{
    match o {
        Operand::InRegister(r) => register(tags, r),
        Operand::Constant(_) => 0,
    }
}

impl Machines {
    // The tag of the open one of two operands.
    fn operand_tag(&self, a: Operand, b: Operand) -> u64
        ensures { result ≡ operand_tag a b self.now.low self.now.high self.now.tags }
    {
        let x = a.value(&self.low);
        let y = a.value(&self.high);
        if x == y {
            tag_in(b, &self.tags)
        } else {
            tag_in(a, &self.tags)
        }
    }

    #[tactic(auto, unfolding(corners::specs::Working::Tags::tag_by))]
    fn tag_by(&self, s: Sorting) -> u64
        ensures { result ≡ tag_by s self.now.low self.now.high self.now.tags }
    {
        match s {
            Sorting::Operates { op, first, second } => self.operand_tag(first, second),
            Sorting::Compares { first, second } => self.operand_tag(first, second),
            Sorting::Nothing => 0,
        }
    }

    // The input that an instruction's class hangs on.
    #[tactic(auto, unfolding(corners::specs::Working::Tags::class_tag))]
    pub fn class_tag(&self, i: Instruction) -> u64
        ensures { Hangs i self.now.low self.now.high self.now.tags result }
    {
        self.tag_by(sorting_of(i))
    }

    pub fn mark_copied(&mut self, rd: usize, rs1: usize)
        ensures { self.new ≡ with_tags self.old (to_register rd (get_or self.old.tags rs1 0) (tags_of self.old)) }
    {
        let v = register(&self.tags, rs1);
        put(&mut self.tags, rd, v);
    }

    pub fn mark_result(&mut self, rd: usize, rs1: usize, rs2: usize)
        ensures { let v = operand_tag (Operand.InRegister rs1) (Operand.InRegister rs2) self.old.low self.old.high self.old.tags in
            self.new ≡ with_tags self.old (to_register rd v (tags_of self.old)) }
    {
        let v = self.operand_tag(Operand::InRegister(rs1), Operand::InRegister(rs2));
        put(&mut self.tags, rd, v);
    }

    pub fn mark_loaded(&mut self, rd: usize, rs1: usize, imm: i64)
        ensures { let a = word (get_or self.old.low rs1 0 + widen imm) in
            self.new ≡ with_tags self.old (to_register rd (get_or self.old.tagmem (a / 8) 0) (tags_of self.old)) }
    {
        let a = offset(&self.low, rs1, imm);
        let v = load(&self.tagmem, a);
        put(&mut self.tags, rd, v);
    }

    pub fn mark_stored(&mut self, rs1: usize, rs2: usize, imm: i64)
        ensures { let a = word (get_or self.old.low rs1 0 + widen imm) in
            self.new ≡ with_tags self.old (to_memory (a / 8) (get_or self.old.tags rs2 0) (tags_of self.old)) }
    {
        let a = offset(&self.low, rs1, imm);
        let v = register(&self.tags, rs2);
        store(&mut self.tagmem, a, v);
    }

    // With an input left, the word that is read hangs on it.
    #[tactic(auto, unfolding(corners::specs::Working::Tags::tag_step))]
    pub(crate) fn mark_read(&mut self, inputs: &[u64], at: At)
        ensures { Marks inputs.now Ecall at self.old self.new }
    {
        put(&mut self.tags, 10, 0);
        let k = at.reads;
        if k < inputs.len() {
            let a = register(&self.low, 11);
            store(&mut self.tagmem, a, k as u64);
        }
    }

    // The tags after an instruction, from the registers before it.
    #[tactic(auto, unfolding(corners::specs::Working::Tags::tag_step))]
    pub(crate) fn mark(&mut self, i: Instruction, inputs: &[u64], at: At)
        ensures { Marks inputs.now i at self.old self.new }
    {
        // a match: each arm takes other operands, and a table of closures would hand all of them to each
        match i {
            Instruction::Lui { rd, imm } => put(&mut self.tags, rd, 0),
            Instruction::Immediate { op, rd, rs1, imm } => self.mark_copied(rd, rs1),
            Instruction::Register { op, rd, rs1, rs2 } => self.mark_result(rd, rs1, rs2),
            Instruction::Ld { rd, rs1, imm } => self.mark_loaded(rd, rs1, imm),
            Instruction::Sd { rs1, rs2, imm } => self.mark_stored(rs1, rs2, imm),
            Instruction::Branch { on, rs1, rs2, imm } => {}
            Instruction::Jal { rd, imm } => put(&mut self.tags, rd, 0),
            Instruction::Jalr { rd, rs1, imm } => put(&mut self.tags, rd, 0),
            Instruction::Ecall => self.mark_read(inputs, at),
        }
    }

    // No input read.
    pub fn clear_tags(&mut self)
        ensures { self.new ≡ with_tags self.old (tagged (replicate 32 0) (replicate memory_words 0)) }
    {
        self.tags = [0u64; 32];
        self.tagmem = [0u64; Machine::MEMORY_WORDS];
    }
}
