//! Laws about the forms, as contracts of functions without a body.

ghost use Rattle.std.specs.Prelude.{◌≡◌, ℕ, List};
ghost use Rattle.bb_terms.specs.Plan.{PlanValue};
ghost use Rattle.bb_forms.specs.declared.signature.Signature.{Signature};
ghost use Rattle.bb_forms.specs.CertificateText.{CertificateValue, IsFormedCertificate, AreCertificateLines, certificate_text};
ghost use Rattle.bb_forms.specs.Forms.{IsFirstUnformed};
ghost use Rattle.bb_forms.specs.ScheduleText.{IsFormedPlan, AreScheduleLines, schedule_text};
ghost use Rattle.bb_forms.specs.SignatureText.{AreFormedSignatures, AreSignatureLines, signature_text};

/// A text is the schedule of one plan at most, and then has no first bad line. Any text has one first bad line at most.
pub fn one_plan()
    ensures one { (p q : PlanValue) → IsFormedPlan p → IsFormedPlan q → schedule_text p ≡ schedule_text q → p ≡ q }
    ensures all { (p : PlanValue) (number : ℕ) → IsFormedPlan p → IsFirstUnformed AreScheduleLines number (schedule_text p) → ⊥ }
    ensures line { (text : List ℕ) (number other : ℕ) → IsFirstUnformed AreScheduleLines number text → IsFirstUnformed AreScheduleLines other text → number ≡ other }
{}

/// A text is that of one list of signatures at most, and then has no first bad line. Any text has one first bad line at most.
pub fn one_list()
    ensures one { (s t : List (List Signature)) → AreFormedSignatures s → AreFormedSignatures t → signature_text s ≡ signature_text t → s ≡ t }
    ensures all { (s : List (List Signature)) (number : ℕ) → AreFormedSignatures s → IsFirstUnformed AreSignatureLines number (signature_text s) → ⊥ }
    ensures line { (text : List ℕ) (number other : ℕ) → IsFirstUnformed AreSignatureLines number text → IsFirstUnformed AreSignatureLines other text → number ≡ other }
{}

/// A text is that of one certificate at most, and then has no first bad line. Any text has one first bad line at most.
pub fn one_certificate()
    ensures one { (c d : CertificateValue) → IsFormedCertificate c → IsFormedCertificate d → certificate_text c ≡ certificate_text d → c ≡ d }
    ensures all { (c : CertificateValue) (number : ℕ) → IsFormedCertificate c → IsFirstUnformed AreCertificateLines number (certificate_text c) → ⊥ }
    ensures line { (text : List ℕ) (number other : ℕ) → IsFirstUnformed AreCertificateLines number text → IsFirstUnformed AreCertificateLines other text → number ≡ other }
{}
